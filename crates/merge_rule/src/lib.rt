//! The merge of two roads into one (Daganzo 1995; the rounding to whole parts is docs/MODEL.md's).
//!
//! Where the road ahead has room for all that both senders have, all goes. Otherwise its room is shared by the
//! senders' priorities, and what one of them leaves of its share goes to the other. No part of the room is lost.
#![tactic(auto)]

mod flow;

pub use flow::{merge_by_share, merge_flow};
