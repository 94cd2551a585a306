ghost use Rattle.std.specs.Prelude.{◌≤◌};

use call_ending::Status;
use ctm_call::ctm;
use ctm_ports::{MemSink, MemSource, SureSink, SureSource};
use region_slots::{NoObserver, Observer};
use std::alloc::{AllocError, Global};
use std::panic::Expect;
use std::process::Abort;
use std::thread::Threads;

// Files and reports are written here as in docs/FORMAT.md: `; ` stands for a line end, and the last one isn't written.

// A gate, a road and an exit.
pub(crate) const CORRIDOR: &str =
    "ctm,1; steps,3; gate,in,2,0; road,a,6,2,1,2,0; exit,out,2; link,in,a; link,a,out; \
demand,in,0,1,4";

pub(crate) const CORRIDOR_REPORT: &str = "report,3,3; cell,in,0.000000,4.000000,4.000000,2.000000; \
cell,a,2.000000,4.000000,2.000000,0.000000; cell,out,2.000000,2.000000,0.000000,0.000000; \
total,2.000000,4.000000,2.000000,2.000000";

// What comes before the corridor where it is saved with its gate a step ahead of the rest.
pub(crate) const CORRIDOR_AHEAD: &str =
    "saved,1,2; step,2; step,1; row,0,2000000,4000000,2000000,2000000,4000000; row,1,0,0,0,0,0; row,1,0,0,0,0,0; net";

// The lines of these texts, one behind the other, in which `; ` stands for a line end.
pub(crate) fn lines(alloc: Global, texts: &[&str]) -> Result<Vec<u8>, AllocError> {
    let mut lines = Vec::new(alloc);
    for text in texts {
        put_lines(alloc, &mut lines, text)?;
    }
    Ok(lines)
}

fn put_lines(alloc: Global, lines: &mut Vec<u8>, text: &str) -> Result<(), AllocError> {
    let text = text.replace(alloc, "; ", "\n")?;
    lines.extend_from_slice(text.as_bytes())?;
    lines.push(b'\n')?;
    Ok(())
}

// The words of a text, which spaces part.
pub(crate) fn words_of(alloc: Global, text: &str) -> Result<Vec<String>, AllocError> {
    let mut words = Vec::new(alloc);
    for word in text.split(' ') {
        words.push(String::from_str(alloc, word)?)?;
    }
    Ok(words)
}

// How a call ended, and what it wrote.
#[derive(Debug, Drop)]
pub(crate) struct Ended<T> {
    pub(crate) status: Status,
    pub(crate) out: T,
    pub(crate) err: T,
}

// A call with these words over the lines of these texts and past an observer, over ports that never fail.
pub(crate) fn call_past<R: Threads + Sync, W: Observer>(
    rt: &R,
    alloc: Global,
    words: &str,
    input: &[&str],
    observer: &W,
) -> Result<Ended<SureSink>, AllocError> {
    let words = words_of(alloc, words)?;
    let mut source = SureSource::new(lines(alloc, input)?);
    let mut out = SureSink::new(alloc);
    let mut err = SureSink::new(alloc);
    let status = ctm(rt, alloc, &words, &mut source, &mut out, &mut err, observer);
    Ok(Ended { status, out, err })
}

// Looks whether such a call is done, and whether its text ends with the lines of these texts or is these lines.
pub(crate) fn call_gives<R: Abort + Threads + Sync, W: Observer>(
    rt: &R,
    alloc: Global,
    words: &str,
    input: &[&str],
    observer: &W,
    texts: &[&str],
    is_whole: bool,
) {
    let ended = call_past(rt, alloc, words, input, observer).expect(rt, "memory");
    let want = lines(alloc, texts).expect(rt, "memory");
    let text = ended.out.bytes();
    assert_eq!(rt; ended.status, Status::Done);
    assert!(rt; text.ends_with(&want), "{words}");
    assert!(rt; text.len() == want.len() || !is_whole, "{words}");
}

// A call over the lines of these texts whose source, output and standard error pass `chunk` bytes at a time, and fail at these calls of
// theirs.
pub(crate) fn failing_call<R: Threads + Sync>(
    rt: &R,
    alloc: Global,
    words: &str,
    input: &[&str],
    chunk: usize,
    fails: [&[u64]; 3],
) -> Result<Ended<MemSink>, AllocError>
    requires { 1 ≤ chunk }
{
    let words = words_of(alloc, words)?;
    let [reads, writes, tells] = fails;
    let out = sink_of(alloc, chunk, writes)?;
    let err = sink_of(alloc, chunk, tells)?;
    let source = source_of(alloc, input, chunk, reads)?;
    Ok(call_over(rt, alloc, &words, source, out, err))
}

// A source of the lines of these texts.
fn source_of(
    alloc: Global,
    input: &[&str],
    chunk: usize,
    fails: &[u64],
) -> Result<MemSource, AllocError>
    requires { 1 ≤ chunk }
{
    let fails = fails.to_vec(alloc)?;
    Ok(MemSource::new(lines(alloc, input)?, chunk, fails))
}

fn sink_of(alloc: Global, chunk: usize, fails: &[u64]) -> Result<MemSink, AllocError>
    requires { 1 ≤ chunk }
{
    Ok(MemSink::new(alloc, chunk, fails.to_vec(alloc)?))
}

// A call over these ports.
fn call_over<R: Threads + Sync>(
    rt: &R,
    alloc: Global,
    words: &[String],
    mut source: MemSource,
    mut out: MemSink,
    mut err: MemSink,
) -> Ended<MemSink> {
    let status = ctm(
        rt,
        alloc,
        words,
        &mut source,
        &mut out,
        &mut err,
        &NoObserver,
    );
    Ended { status, out, err }
}
