ghost use Rattle.std.specs.Prelude.{◌≡◌, ◌≤◌, ℕ, List, Ok, Some, IfErr, IfOk, IsSomeAnd, MatchResult, length};
ghost use Rattle.no_memory.specs.Answers.{IfFault};
ghost use Rattle.no_memory.specs.declared.refused.Refused.TheVariants.{NoMemory};
ghost use Rattle.network_file.specs.Network.{Network};
ghost use Rattle.network_file.specs.Reading.{network_of};
ghost use Rattle.network_file.specs.declared.limits.TheConstants.{MOST_BYTES};
ghost use Rattle.flow_model.specs.State.{state_at};
ghost use Rattle.region_cut.specs.Chart.{chart_of};
ghost use Rattle.region_step.specs.Starting.{IsTrueStart};
ghost use Rattle.saved_run.specs.Content.{Content, IsContent};
ghost use Rattle.saved_run.specs.Futures.{AgreeBelow, IsEdited, edited_content};
ghost use Rattle.saved_run.specs.Heads.{content_in};
ghost use Rattle.saved_run.specs.Loading.{CanStart, GoesOn, IsContentFault, IsLoadFault};
ghost use Rattle.saved_run.specs.Laws.{HasTrueStart};
ghost use Rattle.saved_run.specs.Reading.{IsSavedText, content_of};
ghost use Rattle.saved_run.specs.SavedText.{saved_text};

use crate::fault::LoadFault;
use crate::layout_in::layout_in;
use crate::reading::read_content;
use crate::saved::Saved;
use crate::saved_head::SavedHead;
use crate::start_in::{can_start, start_in};
use network_file::Net;
use no_memory::Refused;
use std::alloc::Global;

/// Reads a saved text, or tells its first fault.
pub fn load(alloc: Global, bytes: &[u8]) -> Result<Saved, Refused<LoadFault>>
    ensures loaded { IfOk result (λ saved. IsSomeAnd (content_of bytes.now) (λ content. GoesOn content saved.net saved.chart saved.start)) }
    ensures one_each { IfOk result (λ saved. length saved.chart.cut ≡ length saved.net.cells) }
    ensures refusal { IfErr result (λ refusal. IfFault refusal (IsLoadFault (content_of bytes.now))) }

    // The regions can be opened where they start.
    ensures charted { IfOk result (λ saved. saved.chart ≡ chart_of saved.net saved.chart.cut) }
    ensures can_start { IfOk result (λ saved. CanStart saved.net saved.chart.cut saved.start) }

    // A text with a content is the saved text of it, and each content is read from its saved text.
    ensures spelled { (content : Content) → content_of bytes.now ≡ Some content → IsSavedText bytes.now content }
    ensures read { (content : Content) → IsContent content → content_of (saved_text content) ≡ Some content }

    // If the content has a true start, the text is refused only where memory is, and the saved run has that true start.
    ensures true_start { (net : Network) (cut : List ℕ) → IsSomeAnd (content_of bytes.now) (λ content. HasTrueStart content net cut) →
        MatchResult result (λ saved. (saved.net ≡ net) × (saved.chart.cut ≡ cut) × IsTrueStart net cut saved.start) (λ refusal. refusal ≡ NoMemory) }

    // Two networks that agree below step `u` are in the same state at each step up to `u`. So regions of the one that were
    // saved at steps up to `u` have a true start in the other.
    ensures one_state { (net other : Network) (u t : ℕ) → AgreeBelow net other u → t ≤ u → state_at other t ≡ state_at net t }
    ensures edited { (content : Content) (net other : Network) (u : ℕ) (cut edited : List ℕ) → IsEdited content net other u cut edited →
        HasTrueStart (edited_content content edited) other cut }
{
    match read_content(alloc, bytes)? {
        Some((head, network)) => saved_of(alloc, head, network),
        None => Err(Refused::Fault(LoadFault::Spelling)),
    }
}

// The saved run of a content.
fn saved_of(alloc: Global, head: SavedHead, network: &[u8]) -> Result<Saved, Refused<LoadFault>>
    requires { length network.now ≤ MOST_BYTES }
    ensures loaded { IfOk result (λ saved. GoesOn (content_in head network.now) saved.net saved.chart saved.start) }
    ensures one_each { IfOk result (λ saved. length saved.chart.cut ≡ length saved.net.cells) }
    ensures refusal { IfErr result (λ refusal. IfFault refusal (IsContentFault (content_in head network.now))) }
{
    match Net::read(alloc, network) {
        Ok(net) => started(alloc, net, head),
        Err(Refused::Fault(fault)) => Err(Refused::Fault(LoadFault::Network(fault))),
        Err(Refused::NoMemory) => Err(Refused::NoMemory),
    }
}

// The saved run of a content, by its network.
fn started(alloc: Global, net: Net, head: SavedHead) -> Result<Saved, Refused<LoadFault>>
    ensures loaded { IfOk result (λ saved. (network : List ℕ) → network_of network ≡ Ok net → GoesOn (content_in head network) saved.net saved.chart saved.start) }
    ensures one_each { IfOk result (λ saved. length saved.chart.cut ≡ length saved.net.cells) }
    ensures refusal { IfErr result (λ refusal. (network : List ℕ) → network_of network ≡ Ok net → IfFault refusal (IsContentFault (content_in head network))) }
{
    let layout = layout_in(alloc, &net, &head)?;
    let start = start_in(alloc, head)?;
    if can_start(&start, &layout) {
        let chart = layout.into_chart();
        Ok(Saved { net, chart, start })
    } else {
        Err(Refused::Fault(LoadFault::Start))
    }
}
