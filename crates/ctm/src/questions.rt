// The questions of the first page (lib.rt), asked of vehicles that wait for a narrow exit.

ghost use Rattle.std.specs.Prelude.{◌≤◌, length};
ghost use Rattle.network_file.specs.declared.limits.TheConstants.{MOST_BYTES};

use crate::{
    Layout, LoadFault, MOST_BYTES, Moment, Net, NoMemory, Refused, Run, Saved, charted, load,
};
use std::alloc::Global;
use std::process::Abort;
use std::test::Fail;
use std::thread::Threads;

// Where do vehicles wait longest, and how long?
fn longest_wait<R: Threads + Sync>(
    rt: &R,
    alloc: Global,
    net: &Net,
) -> Result<Option<(usize, u64)>, NoMemory> {
    let run = Run::of(rt, alloc, charted(alloc, net, 16)?, 0, 4)?;
    let rows = run.rows(alloc)?;
    let worst = rows.iter().enumerate().max_by_key(|(_, row)| row.wait);
    Ok(worst.map(|(cell, row)| (cell, row.wait)))
}

// When does a cell first hold so many parts?
fn first_full<R: Threads + Sync>(
    rt: &R,
    alloc: Global,
    net: &Net,
    cell: usize,
    parts: u64,
) -> Result<Option<u64>, NoMemory> {
    let run = Run::of(rt, alloc, charted(alloc, net, 16)?, 1, 4)?;
    for step in 0..run.noted_steps() {
        let notes = run.notes(alloc, step)?;
        if notes.get(cell).is_some_and(|note| note.n >= parts) {
            return Ok(Some(step));
        }
    }
    Ok(None)
}

// What is saved if things change, as in another file, four steps after a step or later?
fn saved_near<R: Threads + Sync>(
    rt: &R,
    alloc: Global,
    net: &Net,
    step: u64,
    other: &[u8],
) -> Result<Vec<u8>, NoMemory>
    requires { length other.now ≤ MOST_BYTES }
{
    let moment = Moment::near(rt, alloc, charted(alloc, net, 16)?, step, 4)?;
    moment.save(alloc, other)
}

// What is the delay then?
fn resumed_delay<R: Threads + Sync>(
    rt: &R,
    alloc: Global,
    text: &[u8],
) -> Result<u128, Refused<LoadFault>> {
    let Saved { net, chart, start } = load(alloc, text)?;
    let run = Run::resumed(rt, alloc, Layout::of(&net, chart), start, 4)?;
    Ok(run.delay(alloc)?)
}

// The two, one after the other.
fn delay_if<R: Threads + Sync>(
    rt: &R,
    alloc: Global,
    net: &Net,
    step: u64,
    other: &[u8],
) -> Result<u128, Refused<LoadFault>>
    requires { length other.now ≤ MOST_BYTES }
{
    let text = saved_near(rt, alloc, net, step, other)?;
    resumed_delay(rt, alloc, &text)
}

// Six vehicles come, two a step pass into the road, and one a step passes the exit. The gate holds 6, 4, 2 and then none: 4 and 2 of
// them wait. The road holds 2, 3, 4, 3, 2, 1 from step 2 on, of which all but one wait: 1, 2, 3, 2, 1.
const QUEUE: &[u8] = b"ctm,1
steps,9
gate,in,2,0
road,a,10,2,1,1,0
exit,out,1
link,in,a
link,a,out
demand,in,0,1,6
";

// From step 6 on the exit lets two pass: the two that the road holds then go, and none waits.
const WIDER: &[u8] = b"ctm,1
steps,9
gate,in,2,0
road,a,10,2,1,1,0
exit,out,1
link,in,a
link,a,out
demand,in,0,1,6
limit,out,6,9,2
";

#[test]
fn the_first_page_is_answered(rt: HostRuntime) -> Result<(), Fail> {
    check_files(&rt, rt.alloc(), QUEUE, WIDER)
}

// The files are parameters, since a proof that has their bytes before it takes minutes.
fn check_files<R: Abort + Threads + Sync>(
    rt: &R,
    alloc: Global,
    queue: &[u8],
    wider: &[u8],
) -> Result<(), Fail> {
    assert!(rt; queue.len() <= MOST_BYTES);
    assert!(rt; wider.len() <= MOST_BYTES);
    let net = Net::read(alloc, queue)?;
    check_run(rt, alloc, &net)?;
    check_change(rt, alloc, &net, queue, 15_000_000)?;
    check_change(rt, alloc, &net, wider, 14_000_000)
}

// The answers of a run of the queue.
fn check_run<R: Abort + Threads + Sync>(rt: &R, alloc: Global, net: &Net) -> Result<(), Fail> {
    assert_eq!(rt; longest_wait(rt, alloc, net)?, Some((1, 9_000_000)));
    assert_eq!(rt; first_full(rt, alloc, net, 1, 4_000_000)?, Some(4));
    assert_eq!(rt; first_full(rt, alloc, net, 1, 4_000_001)?, None);
    Ok(())
}

// The delay if another file takes over from step 6 on.
fn check_change<R: Abort + Threads + Sync>(
    rt: &R,
    alloc: Global,
    net: &Net,
    other: &[u8],
    delay: u128,
) -> Result<(), Fail>
    requires { length other.now ≤ MOST_BYTES }
{
    assert_eq!(rt; delay_if(rt, alloc, net, 2, other)?, delay);
    Ok(())
}
