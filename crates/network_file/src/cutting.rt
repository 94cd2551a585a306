ghost use Rattle.std.specs.Prelude.{◌≡◌, ℕ, eqb, IfOk};
ghost use Rattle.std.specs.List.{list_any};
ghost use Rattle.network_file.specs.Cutting.{greatest, has_no_gap};
ghost use Rattle.record_fields.specs.Marks.{is_marked};

use no_memory::NoMemory;
use record_fields::Marks;
use std::alloc::Global;

/// Whether each region number below the greatest of a list is in it. It needs memory for a mark for each
/// number up to the greatest, and fails only where that is refused.
#[tactic(auto, unfolding(crate::specs::Cutting::has_no_gap))]
pub fn has_no_gap(alloc: Global, numbers: &[u32]) -> Result<bool, NoMemory>
    ensures { IfOk result (λ all. all ≡ has_no_gap numbers.now) }
{
    let seen = marked(alloc, numbers)?;
    Ok((0..greatest(numbers)).all(|number| seen.has(number)))
}

// The numbers of a list, as marks.
fn marked(alloc: Global, numbers: &[u32]) -> Result<Marks, NoMemory>
    ensures { IfOk result (λ marks. (i : ℕ) → is_marked marks i ≡ list_any (eqb i) numbers.now) }
{
    let mut seen = Marks::new(alloc);
    for number in numbers {
        seen.mark(*number)?;
    }
    Ok(seen)
}

/// The greatest region number of a list, 0 for the empty list.
pub fn greatest(numbers: &[u32]) -> u32
    ensures { result ≡ greatest numbers.now }
{
    let mut most = 0;
    for number in numbers {
        if *number > most {
            most = *number;
        }
    }
    most
}
