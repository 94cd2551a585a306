use crate::calling::{CORRIDOR, CORRIDOR_REPORT, call_gives, lines, words_of};
use crate::observers::{Glance, Meeting, Notes};
use crate::step_limit::call_within;
use call_ending::Status;
use ctm_ports::SureSource;
use std::alloc::Global;
use std::panic::Expect;
use std::process::Abort;
use std::sync::atomic::Ordering;
use std::thread::Threads;

// A gate, two roads and an exit, each a region of its own where there are four.
const CHAIN: &str =
    "ctm,1; steps,4; gate,g,2,8; road,a,6,2,1,1,0; road,b,6,2,1,1,0; exit,x,2; link,g,a; link,a,b; link,b,x";

const CHAIN_REPORT: &str = "report,4,4; cell,g,0.000000,0.000000,8.000000,12.000000; \
cell,a,2.000000,8.000000,6.000000,0.000000; cell,b,2.000000,6.000000,4.000000,0.000000; \
cell,x,4.000000,4.000000,0.000000,0.000000; total,4.000000,0.000000,4.000000,12.000000";

// What comes before the chain where it is saved with its gate a step ahead of the rest.
const CHAIN_AHEAD: &str =
    "saved,1,4; step,1; step,0; step,0; step,0; row,0,6000000,0,2000000,6000000,8000000; \
row,1,0,0,0,0,0; row,2,0,0,0,0,0; row,3,0,0,0,0,0; net";

// What comes before the chain where it is saved at its first step, and at its last.
const CHAIN_BEGUN: &str = "saved,1,4; step,0; step,0; step,0; step,0; row,0,8000000,0,0,0,0; \
row,1,0,0,0,0,0; row,2,0,0,0,0,0; row,3,0,0,0,0,0; net";

const CHAIN_ENDED: &str =
    "saved,1,4; step,4; step,4; step,4; step,4; row,0,0,0,8000000,12000000,2000000; \
row,1,2000000,8000000,6000000,0,2000000; row,2,2000000,6000000,4000000,0,2000000; \
row,3,4000000,4000000,0,0,2000000; net";

// The corridor, whose file gives it one region.
const IN_ONE_REGION: &str =
    "ctm,2; steps,3; gate,in,2,0; road,a,6,2,1,2,0; exit,out,2; link,in,a; link,a,out; \
demand,in,0,1,4; region,in,0; region,a,0; region,out,0";

// A made network of three cells and 42 steps.
const SAMPLE: &str = "sample,1,0,3,2,42; total,0.000000,58.068940,58.068940,262.344330";

// The steps 0 to 3 as bits.
const ALL_FOUR: u64 = 0b1111;

// The steps 0 to 41.
const STEPS_TO_41: u64 = (1 << 42) - 1;

// The gate of the chain is a step ahead of the rest.
const CHAIN_SHOT: &str =
    "shot,1,6.000000,2.000000,8.000000,0.000000,0.000000; region,0,1; region,1,0; region,2,0; \
region,3,0; flight,0,2.000000; flight,1,0.000000; flight,2,0.000000; row,g,6.000000,0.000000,2.000000,6.000000; \
row,a,0.000000,0.000000,0.000000,0.000000; row,b,0.000000,0.000000,0.000000,0.000000; \
row,x,0.000000,0.000000,0.000000,0.000000";

// Looks whether two workers of a call wait for each other, whether each region is held at each step, and whether the text ends with
// the lines of these texts.
fn check_meeting<R: Abort + Threads + Sync>(
    rt: &R,
    alloc: Global,
    words: &str,
    input: &[&str],
    texts: &[&str],
) {
    let observer = Meeting::new();
    call_gives(rt, alloc, words, input, &observer, texts, false);
    assert_eq!(rt; observer.met(), 2, "{words}: each waited for the other");
    assert_eq!(rt;
        observer.notes.held_steps(),
        [ALL_FOUR; 4],
        "{words}: each was held at each step"
    );
    check_freed(rt, words, &observer.notes, [ALL_FOUR; 4]);
}

#[test]
fn two_workers_work_at_once(rt: HostRuntime) {
    let saved = [CHAIN_BEGUN, CHAIN];
    let ended = [CHAIN_ENDED, CHAIN];
    let report = [CHAIN_REPORT];
    for (words, input, texts) in [
        ("run --regions 4 --workers 2", &saved[1..], &report[..]),
        (
            "watch --shots 1 --regions 4 --workers 2",
            &saved[1..],
            &report[..],
        ),
        (
            "save --until 4 --regions 4 --workers 2",
            &saved[1..],
            &ended[..],
        ),
        ("resume --workers 2", &saved[..], &report[..]),
        (
            "recut --parts 2 --regions 4 --workers 2",
            &saved[1..],
            &report[..],
        ),
    ] {
        check_meeting(&rt, rt.alloc(), words, input, texts);
    }
}

#[test]
fn a_shot_is_taken_while_a_worker_is_on_its_way(rt: HostRuntime) {
    let observer = Glance::new();
    let words = "watch --shots 1 --regions 4 --workers 1";
    let texts = [CHAIN_SHOT, CHAIN_REPORT];
    call_gives(&rt, rt.alloc(), words, &[CHAIN], &observer, &texts, true);
    assert_eq!(rt;
        observer.seen.load(Ordering::SeqCst),
        2,
        "each waited for the other"
    );
}

#[test]
fn a_run_is_saved_while_a_worker_is_on_its_way(rt: HostRuntime) {
    let observer = Glance::new();
    let words = "save --until 0 --regions 4 --workers 1";
    let texts = [CHAIN_AHEAD, CHAIN];
    call_gives(&rt, rt.alloc(), words, &[CHAIN], &observer, &texts, true);
    assert_eq!(rt;
        observer.seen.load(Ordering::SeqCst),
        2,
        "each waited for the other"
    );
}

// Looks whether the text of a call is the lines of these texts, at which steps each region was held, and that it was freed a step
// past each.
fn check_held<R: Abort + Threads + Sync>(
    rt: &R,
    alloc: Global,
    words: &str,
    input: &[&str],
    texts: &[&str],
    held: [u64; 4],
) {
    let observer = Notes::new();
    call_gives(rt, alloc, words, input, &observer, texts, true);
    assert_eq!(rt; observer.held_steps(), held, "{words}: held");
    check_freed(rt, words, &observer, held);
}

// Looks whether each region was freed once a step past each at which it was held.
fn check_freed<R: Abort>(rt: &R, words: &str, observer: &Notes, held: [u64; 4]) {
    let [first, second, third, fourth] = held;
    let freed = [first << 1, second << 1, third << 1, fourth << 1];
    assert_eq!(rt; observer.freed_steps(), freed, "{words}: freed");
    let mut frees: u64 = 0;
    for steps in freed {
        frees = frees.wrapping_add(u64::from(steps.count_ones()));
    }
    assert_eq!(rt; observer.frees(), frees, "{words}: each was told once");
}

#[test]
fn a_run_is_in_as_many_regions_as_were_asked_for(rt: HostRuntime) {
    let words = "run --regions 2";
    let held = [ALL_FOUR, ALL_FOUR, 0, 0];
    check_held(&rt, rt.alloc(), words, &[CHAIN], &[CHAIN_REPORT], held);
}

#[test]
fn a_sample_is_in_as_many_regions_as_were_asked_for(rt: HostRuntime) {
    let words = "sample --size 1 --seed 0 --regions 3";
    let held = [STEPS_TO_41, STEPS_TO_41, STEPS_TO_41, 0];
    check_held(&rt, rt.alloc(), words, &[], &[SAMPLE], held);
}

// The gate from step 1, and the rest from step 0.
#[test]
fn regions_go_on_from_their_own_steps(rt: HostRuntime) {
    let held = [0b1110, ALL_FOUR, ALL_FOUR, ALL_FOUR];
    let saved = [CHAIN_AHEAD, CHAIN];
    check_held(
        &rt,
        rt.alloc(),
        "resume --workers 2",
        &saved,
        &[CHAIN_REPORT],
        held,
    );
}

// Two regions up to step 1, and three from there on.
#[test]
fn each_part_of_a_run_is_in_regions_of_its_own(rt: HostRuntime) {
    let words = "recut --parts 2 --regions 2";
    let held = [0b111, 0b111, 0b110, 0];
    check_held(
        &rt,
        rt.alloc(),
        words,
        &[CORRIDOR],
        &[CORRIDOR_REPORT],
        held,
    );
}

#[test]
fn a_file_s_regions_are_those_of_a_run_and_not_those_of_its_parts(rt: HostRuntime) {
    for (words, held) in [
        ("run --regions 3", [0b111, 0, 0, 0]),
        ("recut --parts 2 --regions 2", [0b111, 0b111, 0b110, 0]),
    ] {
        check_held(
            &rt,
            rt.alloc(),
            words,
            &[IN_ONE_REGION],
            &[CORRIDOR_REPORT],
            held,
        );
    }
}

// Looks whether a call runs the chain to its report, taking no region through more than so many steps.
fn check_within<R: Abort + Threads + Sync>(rt: &R, alloc: Global, most: u64) {
    let words = words_of(alloc, "run --regions 4 --workers 2").expect(rt, "memory");
    let source = SureSource::new(lines(alloc, &[CHAIN]).expect(rt, "memory"));
    let report = lines(alloc, &[CHAIN_REPORT]).expect(rt, "memory");
    let ended = call_within(rt, alloc, &words, source, most);
    assert_eq!(rt; ended.status, Status::Done);
    assert_eq!(rt; ended.out.bytes(), report.as_slice());
}

#[test]
fn a_run_up_to_its_limit_has_its_report(rt: HostRuntime) {
    check_within(&rt, rt.alloc(), 4);
}

#[test]
#[should_panic(expected = "a step past the limit")]
fn a_run_past_its_limit_ends_the_process(rt: HostRuntime) {
    check_within(&rt, rt.alloc(), 3);
}
