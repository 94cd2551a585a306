//! Trials of workers that wait, of the crew by itself and of the call, with observers at which two of them meet, one past
//! which the last moves come while a member sweeps in vain, and one that notes the regions. There is nothing here but tests.
#![tactic(auto)]

#[cfg(test)]
mod calling;
#[cfg(test)]
mod crew;
#[cfg(test)]
mod last_moves;
#[cfg(test)]
mod meeting;
#[cfg(test)]
mod regions;
#[cfg(test)]
mod tests;
#[cfg(test)]
mod woken;
