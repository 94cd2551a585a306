//! Trials of single rules with worked values: the spelling of amounts, the flows of merges and diverges, and the adapters to
//! readers and writers that fail. There is nothing here but tests.
#![tactic(auto)]

#[cfg(test)]
mod amount_tests;
#[cfg(test)]
mod flow_tests;
#[cfg(test)]
mod stream_tests;
#[cfg(test)]
mod streams;
