//! Trials of the call `ctm` with what no process can show: ports in memory that fail, and observers at which its workers meet.
//! There is nothing here but tests and what they call; `tests/program` has all other runs, through the built program.
#![tactic(auto)]

#[cfg(test)]
mod calling;
#[cfg(test)]
mod observer_tests;
#[cfg(test)]
mod observers;
#[cfg(test)]
mod port_tests;
#[cfg(test)]
mod step_limit;
