ghost use Rattle.std.specs.Prelude.{◌≡◌, ◌<◌, ◌≤◌, ◌++◌, ◌∷◌, ◌^◌, ℕ, [], All, IfErr, IfOk, None, Ok, OnOk, Option, codes, decimal, length, map, slice_index, slice_index_or};
ghost use Rattle.network_file.specs.Reading.{network_of};
ghost use Rattle.network_file.specs.declared.limits.TheConstants.{MOST_BYTES};
ghost use Rattle.line_fields.specs.Fields.{lines_of};
ghost use Rattle.call_ending.specs.Refusing.{IsRefusalOf};
ghost use Rattle.call_ending.specs.Why.{Why};
ghost use Rattle.call_beginning.specs.NetworkInput.{fault_told};
ghost use Rattle.call_beginning.specs.Refused.{IsToldOf};
ghost use Rattle.workerless_modes.specs.ChooseMode.{IsChooseText, IsChosenAmong, IsChosenOf, candidate_refused, choice_text, choose_refused, plan_line, plans_refused, why_of_candidate, why_of_candidates};

use call_beginning::put_fault;
use call_ending::{Cause, Line, Refusal};
use itoa::Buffer;
use line_fields::{put_count, put_signed};
use network_file::{Net, NetFault};
use no_memory::{NoMemory, Refused};
use plan_choice::{Choice, Pieces, choose};
use std::alloc::Global;
use std::thread::Threads;

/// The delay of each plan of an input, and the first plan with the least.
pub fn choose_text<R: Threads + Sync>(
    rt: &R,
    alloc: Global,
    input: &[u8],
) -> Result<Vec<u8>, Refusal>
    requires few_bytes { length input.now ≤ MOST_BYTES }
    ensures text { IfOk result (λ text. (choose_refused input.now ≡ None) × IsChooseText input.now text.items) }
    ensures refusal { IfErr result (IsRefusalOf (choose_refused input.now) ⊥) }
{
    match Pieces::of(alloc, input) {
        Ok(pieces) => text_of(rt, alloc, &pieces),
        Err(Refused::Fault(count)) => Err(miscounted(alloc, count.found)),
        Err(Refused::NoMemory) => Err(Refusal::NoMemory),
    }
}

// The same of an input that was cut so.
fn text_of<R: Threads + Sync>(rt: &R, alloc: Global, pieces: &Pieces) -> Result<Vec<u8>, Refusal>
    requires some { 1 ≤ length pieces.now }
    requires few { length pieces.now ≤ 16 }
    requires few_bytes { (p : ℕ) → length (slice_index_or pieces.now p []) ≤ MOST_BYTES }
    ensures text { IfOk result (λ text. (why_of_candidates 0 pieces.now ≡ None) × IsChosenOf pieces.now text.items) }
    ensures refusal { IfErr result (IsRefusalOf (why_of_candidates 0 pieces.now) ⊥) }
{
    match networks(alloc, pieces) {
        Ok(nets) => Ok(chosen(rt, alloc, &nets)?),
        Err(refusal) => Err(refusal),
    }
}

// The refusal of an input with so many separators.
fn miscounted(alloc: Global, separators: u64) -> Refusal
    ensures { IsRefusalOf (Some (plans_refused separators)) ⊥ result }
{
    match counted_line(alloc, separators) {
        Ok(line) => Refusal::Told(Cause::Plans, Line::Made(line)),
        Err(NoMemory) => Refusal::NoMemory,
    }
}

fn counted_line(alloc: Global, separators: u64) -> Result<Vec<u8>, NoMemory>
    ensures { IfOk result (λ line. line.items ≡ codes "ctm: plans: " ++ decimal separators ++ codes "\n") }
{
    let mut digits = Buffer::new();
    let mut line = Vec::new(alloc);
    line.extend_from_slice(b"ctm: plans: ")?;
    line.extend_from_slice(digits.format(separators).as_bytes())?;
    line.extend_from_slice(b"\n")?;
    Ok(line)
}

// The networks of all candidates, or the refusal of the first that has a fault.
fn networks(alloc: Global, pieces: &Pieces) -> Result<Vec<Net>, Refusal>
    requires few_bytes { (p : ℕ) → length (slice_index_or pieces.now p []) ≤ MOST_BYTES }
    ensures networks { IfOk result (λ nets. map network_of pieces.now ≡ map Ok nets.items) }
    ensures one_each { IfOk result (λ nets. length nets.items ≡ length pieces.now) }
    ensures accepted { IfOk result (λ nets. why_of_candidates 0 pieces.now ≡ None) }
    ensures refusal { IfErr result (IsRefusalOf (why_of_candidates 0 pieces.now) ⊥) }
{
    let mut nets = Vec::new(alloc);
    let count = pieces.count();
    for p in 0..count {
        match network(alloc, pieces, p) {
            Ok(net) => put_network(&mut nets, net)?,
            Err(refusal) => return Err(refusal),
        }
    }
    Ok(nets)
}

// Appends a network to others.
fn put_network(nets: &mut Vec<Net>, net: Net) -> Result<(), NoMemory>
    ensures { OnOk result (nets.new.items ≡ nets.old.items ++ net ∷ []) }
{
    nets.push(net)?;
    Ok(())
}

// The network of candidate `p`, whose bytes are there for as long as they are read.
fn network(alloc: Global, pieces: &Pieces, p: u32) -> Result<Net, Refusal>
    requires there { p < length pieces.now }
    requires few_bytes { length (slice_index_or pieces.now p []) ≤ MOST_BYTES }
    ensures network { IfOk result (λ net. network_of (slice_index_or pieces.now p []) ≡ Ok net) }
    ensures refusal { IfErr result (λ refusal. (later : Option Why) →
        IsRefusalOf (why_of_candidate p (network_of (slice_index_or pieces.now p [])) later) ⊥ refusal) }
{
    let file = pieces.candidate(alloc, p)?;
    match Net::read(alloc, &file) {
        Ok(net) => Ok(net),
        Err(refusal) => Err(refused_candidate(alloc, p, refusal)),
    }
}

// The refusal of candidate `p`, with the line that tells its fault.
fn refused_candidate(alloc: Global, p: u32, refusal: Refused<NetFault>) -> Refusal
    ensures { IsToldOf (candidate_refused p) refusal result }
{
    match refusal {
        Refused::Fault(fault) => match candidate_fault(alloc, p, fault) {
            Ok(line) => Refusal::Told(Cause::Network, Line::Made(line)),
            Err(NoMemory) => Refusal::NoMemory,
        },
        Refused::NoMemory => Refusal::NoMemory,
    }
}

fn candidate_fault(alloc: Global, p: u32, fault: NetFault) -> Result<Vec<u8>, NoMemory>
    ensures { IfOk result (λ line. line.items ≡ codes "ctm: network: plan " ++ decimal p ++ codes " " ++ fault_told fault) }
{
    let mut digits = Buffer::new();
    let mut line = Vec::new(alloc);
    line.extend_from_slice(b"ctm: network: plan ")?;
    line.extend_from_slice(digits.format(p).as_bytes())?;
    line.extend_from_slice(b" ")?;
    put_fault(&mut line, fault)?;
    Ok(line)
}

// The text of the choice among networks.
fn chosen<R: Threads + Sync>(rt: &R, alloc: Global, nets: &[Net]) -> Result<Vec<u8>, NoMemory>
    requires some { 1 ≤ length nets.now }
    requires few { length nets.now ≤ 16 }
    ensures { IfOk result (λ text. IsChosenAmong nets.now text.items) }
{
    let choice = choose(rt, alloc, nets)?;
    let text = choice_lines(alloc, &choice)?;
    Ok(text)
}

// The line of each plan, and that of the choice.
#[tactic(auto, unfolding(crate::specs::ChooseMode::choice_text))]
fn choice_lines(alloc: Global, choice: &Choice) -> Result<Vec<u8>, NoMemory>
    requires { All (λ delay. delay < 2 ^ 96) choice.now.delays.items }
    ensures { IfOk result (λ text. text.items ≡ choice_text choice.now.delays.items choice.now.plan) }
{
    let mut text = Vec::new(alloc);
    put_plan_lines(&mut text, &choice.delays)?;
    text.extend_from_slice(b"choice")?;
    put_count(&mut text, u64::from(choice.plan))?;
    text.extend_from_slice(b"\n")?;
    Ok(text)
}

fn put_plan_lines(text: &mut Vec<u8>, delays: &[u128]) -> Result<(), NoMemory>
    requires { All (λ delay. delay < 2 ^ 96) delays.now }
    ensures { OnOk result (text.new.items ≡ text.old.items ++ lines_of (λ p. plan_line p (slice_index delays.now p)) (length delays.now)) }
{
    for (p, delay) in delays.iter().enumerate() {
        put_plan_line(text, p as u64, *delay)?;
    }
    Ok(())
}

#[tactic(auto, unfolding(crate::specs::ChooseMode::plan_line))]
fn put_plan_line(text: &mut Vec<u8>, p: u64, delay: u128) -> Result<(), NoMemory>
    requires { delay < 2 ^ 96 }
    ensures { OnOk result (text.new.items ≡ text.old.items ++ plan_line p delay) }
{
    text.extend_from_slice(b"plan")?;
    put_count(text, p)?;
    put_signed(text, delay as i128)?;
    text.extend_from_slice(b"\n")?;
    Ok(())
}
