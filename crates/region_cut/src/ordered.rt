ghost use Rattle.std.specs.Prelude.{◌≡◌, ℕ, Bool};
ghost use Rattle.std.specs.List.{list_any};
ghost use Rattle.std.specs.List.Sorted.{IsStrictlyIncreasing};

/// Puts a list in order, each number once.
pub(crate) fn order(list: &mut Vec<u32>)
    ensures increasing { IsStrictlyIncreasing list.new.items }
    ensures same { (test : ℕ → Bool) → list_any test list.new.items ≡ list_any test list.old.items }
{
    list.sort_unstable();
    list.dedup();
}
