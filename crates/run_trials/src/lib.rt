//! Trials of regions that are taken through their steps: by the plain body and the fast one, side by side; by passes
//! that take turns, look and take shots at once, held against whole steps of the plain recurrences; and from later steps than
//! 0, with what is noted of them, also where they are cut anew. There is nothing here but tests.
#![tactic(auto)]

#[cfg(test)]
mod alike;
#[cfg(test)]
mod bodies;
#[cfg(test)]
mod body_tests;
#[cfg(test)]
mod compared_networks;
#[cfg(test)]
mod comparing;
#[cfg(test)]
mod even_starts;
#[cfg(test)]
mod late_starts;
#[cfg(test)]
mod mixed_calls;
#[cfg(test)]
mod networks;
#[cfg(test)]
mod order_tests;
#[cfg(test)]
mod rounds;
