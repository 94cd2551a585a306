ghost use Rattle.std.specs.Prelude.{◌≡◌, ◌≤◌, IfErr, IfOk, None, length};
ghost use Rattle.network_file.specs.declared.limits.TheConstants.{MOST_BYTES};
ghost use Rattle.call_ending.specs.Refusing.{IsRefusalOf};
ghost use Rattle.workerless_modes.specs.ConvertMode.{IsConvertText, convert_refused};

use call_beginning::refused;
use call_ending::Refusal;
use converted_file::convert;
use std::alloc::Global;

/// The file written again: in format 3 where that is its own, and else in format 2.
pub fn convert_text(alloc: Global, input: &[u8]) -> Result<Vec<u8>, Refusal>
    requires few_bytes { length input.now ≤ MOST_BYTES }
    ensures text { IfOk result (λ text. (convert_refused input.now ≡ None) × IsConvertText input.now text.items) }
    ensures refusal { IfErr result (IsRefusalOf (convert_refused input.now) ⊥) }
{
    match convert(alloc, input) {
        Ok(text) => Ok(text),
        Err(refusal) => Err(refused(alloc, refusal)),
    }
}
