ghost use Rattle.std.specs.Prelude.{◌≡◌, ◌+◌, ◌<◌, ◌^◌, All, IfOk, length, map};
ghost use Rattle.cut_grow.specs.Counts.{begin_of};
ghost use Rattle.cut_grow.specs.Spans.{AreGains, AreWithin};

use crate::counts::counts_below;
use crate::span::Span;
use no_memory::NoMemory;
use std::alloc::Global;

/// The spans of an order, and for each place how many of them lie inside a small run and inside a large one from it on.
#[derive(Drop)]
pub(crate) struct Gains {
    pub(crate) spans: Vec<Span>,
    pub(crate) small: Vec<u32>,
    pub(crate) large: Vec<u32>,
}

/// For each place how many spans lie inside a run of this size from it on.
pub(crate) fn run_gains(
    alloc: Global,
    spans: &[Span],
    size: u32,
    cells: u32,
) -> Result<Vec<u32>, NoMemory>
    requires few { length spans.now < 2 ^ 32 }
    requires within { AreWithin cells spans.now }
    ensures { IfOk result (λ gains. AreGains spans.now cells size gains.items) }
{
    let begins = begins(alloc, spans, size)?;
    let firsts = firsts(alloc, spans)?;
    let begun = counts_below(alloc, &begins, cells)?;
    let passed = counts_below(alloc, &firsts, cells)?;
    let mut gains = Vec::new(alloc);
    for place in 0..cells as usize {
        gains.push(begun[place + 1] - passed[place])?;
    }
    Ok(gains)
}

// The first place of each span.
fn firsts(alloc: Global, spans: &[Span]) -> Result<Vec<u32>, NoMemory>
    ensures { IfOk result (λ firsts. firsts.items ≡ map (λ span. span.first) spans.now) }
{
    let mut firsts = Vec::new(alloc);
    for span in spans {
        firsts.push(span.first)?;
    }
    Ok(firsts)
}

// For each span the first place from which a run of this size has it whole; where it is too long, the place after its
// first, from which no run has it.
fn begins(alloc: Global, spans: &[Span], size: u32) -> Result<Vec<u32>, NoMemory>
    requires { All (λ span. (span.first + 1 < 2 ^ 32) × (span.last + 1 < 2 ^ 32)) spans.now }
    ensures { IfOk result (λ begins. begins.items ≡ map (begin_of size) spans.now) }
{
    let mut begins = Vec::new(alloc);
    for span in spans {
        let begin = (span.last + 1).saturating_sub(size).min(span.first + 1);
        begins.push(begin)?;
    }
    Ok(begins)
}
