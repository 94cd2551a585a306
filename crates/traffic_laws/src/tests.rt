use crate::{Travel, travel_steps, wait_area};
use std::test::Fail;

// A gate from which two vehicles go a step: in step 0 four come to it.
const COME: [u64; 4] = [0, 4_000_000, 4_000_000, 4_000_000];

const GONE: [u64; 4] = [0, 0, 2_000_000, 4_000_000];

#[test]
fn two_of_four_wait_for_one_step(rt: HostRuntime) -> Result<(), Fail> {
    assert_eq!(rt; wait_area(0, &COME, &GONE), 2_000_000);
    let second = Travel {
        enters: Some(1),
        leaves: Some(2),
    };
    assert_eq!(rt; travel_steps(0, &COME, &GONE, 1_999_999), second);
    assert_eq!(rt; second.steps_waited(3), 0);
    let third = Travel {
        enters: Some(1),
        leaves: Some(3),
    };
    assert_eq!(rt; travel_steps(0, &COME, &GONE, 2_000_000), third);
    assert_eq!(rt; third.steps_waited(3), 1);
    Ok(())
}

// The third vehicle at an earlier end: it has come by step 1, and hasn't gone by step 2.
#[test]
fn one_still_there_waits_for_each_step_since_it_came(rt: HostRuntime) -> Result<(), Fail> {
    let third = Travel {
        enters: Some(1),
        leaves: None,
    };
    assert_eq!(rt; third.steps_waited(2), 1);
    Ok(())
}
