//! Trials of the shared field through its public calls, in one thread and between two: turns and what they wait for, passes
//! that were shared off, shots that find a region held, and crews whose members work at once. There is nothing here but tests.
//!
//! Each test names a [`Trial`](trial) and a network; `on_field` opens a field of it, and has the trial made.
#![tactic(auto)]

#[cfg(test)]
mod crew_trials;
#[cfg(test)]
mod help_trials;
#[cfg(test)]
mod meanwhile;
#[cfg(test)]
mod meeting;
#[cfg(test)]
mod networks;
#[cfg(test)]
mod notes;
#[cfg(test)]
mod pause;
#[cfg(test)]
mod shot_trials;
#[cfg(test)]
mod tests;
#[cfg(test)]
mod trial;
#[cfg(test)]
mod turn_trials;
#[cfg(test)]
mod two_nests;
