ghost use Rattle.std.specs.Prelude.{◌≡◌, ◌+◌, ◌*◌, ◌<◌, ◌≤◌, ◌^◌, IfOk, length};
ghost use Rattle.border_rows.specs.Places.{base_of, claim_place, row_place, step_place, width_at, widths_of, words_of};

use crate::span::Span;
use no_memory::NoMemory;
use region_cut::Layout;
use std::alloc::Global;
use std::marker::Model;

/// Where the words of each region stand. Contracts see it as the number of border cells of each region.
#[derive(Drop)]
pub struct Places {
    spans: Vec<Span>,
    words: u32,
}

impl Model for Places {
    ghost use Rattle.std.specs.Prelude.{List, ℕ};
    ghost use Rattle.border_rows.specs.Spans.{AreLaidOut, widths_in};

    ghost Value = { List ℕ };

    ghost view = { λ places. widths_in places.spans.items };

    ghost invariant = { λ places. AreLaidOut places.spans.items places.words };
}

impl Places {
    /// The places for the regions of a layout; an error says that memory was refused.
    pub fn new(alloc: Global, layout: &Layout) -> Result<Places, NoMemory>
        ensures { IfOk result (λ places. places ≡ widths_of layout.now.chart) }
    {
        let net = layout.net();
        let _steps = net.steps;
        let mut spans = Vec::new(alloc);
        let mut words = 0;
        for r in 0..layout.regions() {
            let width = layout.border(r).len() as u32;
            let span = Span { base: words, width };
            spans.push(span)?;
            words = span.end();
        }
        Ok(Places { spans, words })
    }

    /// How many words there are.
    pub fn words(&self) -> u32
        ensures { result ≡ words_of self.now }
    {
        self.words
    }

    /// The place of the claim word of region `r`.
    pub fn claim(&self, r: u32) -> u32
        requires { r < length self.now }
        ensures place { result ≡ claim_place self.now r }
        ensures there { result < words_of self.now }
    {
        self.span(r).base
    }

    /// The place of the step word of region `r`.
    pub fn step(&self, r: u32) -> u32
        requires { r < length self.now }
        ensures place { result ≡ step_place self.now r }
        ensures there { result < words_of self.now }
    {
        self.span(r).base + 1
    }

    /// The place of the word of the `j`-th border cell of region `r`, in the row of a parity.
    #[tactic(auto, using(crate::proofs::PlaceLaws::rows_within))]
    pub fn row(&self, r: u32, parity: u32, j: u32) -> u32
        requires region { r < length self.now }
        requires parity { parity < 2 }
        requires cell { j < width_at self.now r }
        ensures place { result ≡ row_place self.now r parity j }
        ensures there { result < words_of self.now }
    {
        let span = self.span(r);
        span.base + 2 + parity * span.width + j
    }

    // The words of region `r`.
    fn span(&self, r: u32) -> Span
        requires { r < length self.now }
        ensures base { result.base ≡ base_of self.now r }
        ensures width { result.width ≡ width_at self.now r }
        ensures within { result.base + 2 + 2 * result.width ≤ words_of self.now }
        ensures few { words_of self.now < 2 ^ 32 }
    {
        let _words = self.words;
        self.spans[r as usize]
    }
}
