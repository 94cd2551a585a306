use crate::plan_count::PlanCount;
use crate::separators::{between_separators, separators, split_once};
use no_memory::{NoMemory, Refused};
use std::alloc::Global;
use std::marker::Model;

/// The most plans that an input may have.
const MOST_PLANS: u64 = 16;

/// An input that is cut at its separators: a base, and 1 to 16 plans (docs/FORMAT.md, "Plans").
#[derive(Drop)]
pub struct Pieces<'a> {
    base: &'a [u8],
    plans: Vec<&'a [u8]>,
}

impl<'a> Model for Pieces<'a> {
    ghost use Rattle.std.specs.Prelude.{◌++◌, ◌≤◌, List, ℕ, length, map};

    ghost Value = { List (List ℕ) };

    // The network files of its candidates.
    ghost view = { λ pieces. map (λ plan. pieces.base.now ++ plan.now) pieces.plans.items };

    ghost invariant = { λ pieces. (1 ≤ length pieces.plans.items) × (length pieces.plans.items ≤ 16) };
}

impl<'a> Pieces<'a> {
    ghost use Rattle.std.specs.Prelude.{◌≡◌, ◌<◌, ◌≤◌, ◌⊎◌, [], IfErr, IfOk, length, slice_index_or};
    ghost use Rattle.no_memory.specs.Answers.{IfFault};
    ghost use Rattle.plan_choice.specs.Pieces.{candidates_in};

    /// The pieces of an input, or how many separators it has where these are none or too many.
    pub fn of(alloc: Global, input: &'a [u8]) -> Result<Pieces<'a>, Refused<PlanCount>>
        ensures pieces { IfOk result (λ pieces. pieces ≡ candidates_in input.now) }
        ensures counted { IfOk result (λ pieces. (1 ≤ length pieces) × (length pieces ≤ 16)) }
        ensures refusal { IfErr result (λ refusal. IfFault refusal (λ count. (count.found ≡ length (candidates_in input.now)) × ((count.found ≡ 0) ⊎ (16 < count.found)))) }
    {
        let Some((base, plans)) = split_once(input) else {
            return Err(Refused::Fault(PlanCount { found: 0 }));
        };
        let found = separators(plans) + 1;
        if found > MOST_PLANS {
            return Err(Refused::Fault(PlanCount { found }));
        }
        let plans = between_separators(alloc, plans)?;
        Ok(Pieces { base, plans })
    }

    /// How many plans there are.
    pub fn count(&self) -> u32
        ensures count { result ≡ length self.now }
        ensures few { result ≤ 16 }
    {
        self.plans.len() as u32
    }

    /// The network file of candidate `p`: the bytes of the base, and behind them those of plan `p`.
    pub fn candidate(&self, alloc: Global, p: u32) -> Result<Vec<u8>, NoMemory>
        requires { p < length self.now }
        ensures { IfOk result (λ file. file.items ≡ slice_index_or self.now p []) }
    {
        let mut file = Vec::new(alloc);
        file.extend_from_slice(self.base)?;
        file.extend_from_slice(self.plans[p as usize])?;
        Ok(file)
    }
}
