ghost use Rattle.std.specs.Prelude.{◌≤◌};

use crate::calling::{CORRIDOR, CORRIDOR_AHEAD, CORRIDOR_REPORT, call_past, failing_call, lines};
use call_ending::Status;
use region_slots::NoObserver;
use std::alloc::Global;
use std::panic::Expect;
use std::process::Abort;
use std::thread::Threads;

// Looks at a call of which a read fails, or none where it is the one past the last.
fn check_read<R: Abort + Threads + Sync>(
    rt: &R,
    alloc: Global,
    mode: &str,
    input: &[&str],
    chunk: usize,
    read: u64,
    reads: u64,
)
    requires { 1 ≤ chunk }
{
    let ended = failing_call(rt, alloc, mode, input, chunk, [&[read], &[], &[]]).expect(
        rt, "memory",
    );
    if read == reads {
        assert_eq!(rt; ended.status, Status::Done, "{mode}: no read {read}");
        return;
    }
    assert_eq!(rt; ended.status, Status::ReadFault, "{mode}: read {read}");
    assert!(rt; ended.out.bytes().is_empty(), "read {read}");
    assert_eq!(rt; ended.err.bytes(), b"ctm: read fault\n".as_slice());
}

// Each of the reads fails in turn. The last of them would have found the end, so the one past it is never made.
#[test]
fn a_failing_source_ends_the_call(rt: HostRuntime) {
    let saved = [CORRIDOR_AHEAD, CORRIDOR];
    for (mode, input, chunk, reads) in [
        ("run", &saved[1..], 1, 92),
        ("run", &saved[1..], 7, 14),
        ("resume", &saved[..], 7, 30),
    ] {
        for read in 0..=reads {
            check_read(&rt, rt.alloc(), mode, input, chunk, read, reads);
        }
    }
}

// Looks at a call of which a write fails: its output has this beginning of the text.
fn check_write<R: Abort + Threads + Sync>(
    rt: &R,
    alloc: Global,
    words: &str,
    chunk: usize,
    write: u64,
    begun: &[u8],
)
    requires { 1 ≤ chunk }
{
    let ended = failing_call(rt, alloc, words, &[CORRIDOR], chunk, [&[], &[write], &[]]).expect(
        rt, "memory",
    );
    assert_eq!(rt; ended.status, Status::WriteFault, "{words}: write {write}");
    assert_eq!(rt; ended.out.bytes(), begun);
    assert_eq!(rt; ended.err.bytes(), b"ctm: write fault\n".as_slice());
}

// Looks at a call that passes one byte at a time and is done with this text.
fn check_done<R: Abort + Threads + Sync>(rt: &R, alloc: Global, fails: [&[u64]; 3], text: &[u8]) {
    let ended = failing_call(rt, alloc, "run", &[CORRIDOR], 1, fails).expect(rt, "memory");
    assert_eq!(rt; ended.status, Status::Done);
    assert_eq!(rt; ended.out.bytes(), text);
}

// Each of the writes, of one byte, fails in turn, and the one past the last is never made.
#[test]
fn a_failing_output_has_what_it_took(rt: HostRuntime) {
    let report = lines(rt.alloc(), &[CORRIDOR_REPORT]).expect(&rt, "memory");
    for write in 0..report.len() {
        let begun = &report[..write];
        check_write(&rt, rt.alloc(), "run", 1, write as u64, begun);
    }
    let past: &[u64] = &[report.len() as u64];
    check_done(&rt, rt.alloc(), [&[], past, &[]], &report);
}

#[test]
fn a_failing_output_ends_the_call(rt: HostRuntime) {
    for (mode, write, begun) in [
        ("run", 0, b"".as_slice()),
        ("run", 1, b"report,3,3"),
        ("watch", 1, b"shot,1,0.0"),
        ("save", 0, b""),
        ("save", 1, b"saved,1,1\n"),
        ("save --until 3 --regions 3", 2, b"saved,1,3\nstep,3\nste"),
        ("recut --parts 2", 1, b"report,3,3"),
        ("cut --regions 2", 1, b"cut,2,1,1\n"),
        ("check", 1, b"network,3,"),
        ("convert", 1, b"ctm,2\nstep"),
    ] {
        check_write(&rt, rt.alloc(), mode, 10, write, begun);
    }
}

// Looks at a call whose standard error fails at one of its writes, and whose source and output fail at these of theirs.
fn check_told<R: Abort + Threads + Sync>(
    rt: &R,
    alloc: Global,
    word: &str,
    fails: [&[u64]; 3],
    wanted: Status,
    told: &str,
) {
    let ended = failing_call(rt, alloc, word, &[CORRIDOR], 10, fails).expect(rt, "memory");
    assert_eq!(rt; ended.status, wanted, "{word}");
    assert_eq!(rt; ended.out.bytes().is_empty(), wanted != Status::Done);
    assert_eq!(rt; ended.err.bytes(), told.as_bytes());
}

// Calls whose words are refused, whose input or output fails, and that are done.
#[test]
fn a_failing_standard_error_changes_no_status(rt: HostRuntime) {
    let none: &[u64] = &[];
    let first: &[u64] = &[0];
    let second: &[u64] = &[1];
    for (word, fails, wanted, told) in [
        ("drive", [none, none, first], Status::Words, ""),
        ("run", [first, none, first], Status::ReadFault, ""),
        ("run", [none, first, first], Status::WriteFault, ""),
        (
            "run",
            [none, first, second],
            Status::WriteFault,
            "ctm: write",
        ),
        ("run", [none, none, first], Status::Done, ""),
    ] {
        check_told(&rt, rt.alloc(), word, fails, wanted, told);
    }
}

// bench/refuse-memory runs this again and again and refuses each growth of memory in turn; a refusal before the call shows
// nothing. Run by itself, without a refusal, it shows the whole report.
#[test]
fn a_call_out_of_memory_leaves_a_beginning_of_its_text(rt: HostRuntime) {
    let Ok(report) = lines(rt.alloc(), &[CORRIDOR_REPORT]) else {
        return;
    };
    let Ok(ended) = call_past(&rt, rt.alloc(), "run --regions 2", &[CORRIDOR], &NoObserver) else {
        return;
    };
    let text = ended.out.bytes();
    assert!(rt; report.starts_with(text));
    match ended.status {
        Status::Done => assert_eq!(rt; text.len(), report.len()),
        status => assert_eq!(rt; status, Status::NoMemory),
    }
}
