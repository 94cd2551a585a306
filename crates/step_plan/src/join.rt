ghost use Rattle.std.specs.Prelude.{◌≡◌, ◌+◌, ◌<◌, ◌^◌, None, Some, refl};
ghost use Rattle.std.specs.Option.{option_or};
ghost use Rattle.std.proofs.Math.Nat.{add-zero, add_assoc, le-add_left, le-add_right, lt_of_le_of_lt, zero-add};

/// How what a record gives in a step joins with what the records before it give.
pub(crate) trait Join: Copy {
    /// What no record gives.
    ghost none: { Self };

    /// What two give together.
    ghost joined: { Self → Self → Self };

    /// What may be given in a step.
    ghost Fits: { Self → Type 0 };

    /// What no record gives.
    fn none() -> Self
        ensures { result ≡ none };

    /// What this and a newer one give together.
    fn join(self, newer: Self) -> Self
        requires { Fits (joined self newer) }
        ensures { result ≡ joined self newer };

    // To join with nothing changes nothing, on either side; and of three in a row the first two may be
    // joined first, or the last two.
    ghost joined_none: { (given : Self) → joined given none ≡ given };

    ghost none_joined: { (given : Self) → joined none given ≡ given };

    ghost associative: { (a b c : Self) → joined (joined a b) c ≡ joined a (joined b c) };

    // What fits together fits by itself.
    ghost parts_fit: { (a b : Self) → Fits (joined a b) → Fits a × Fits b };
}

/// The newer record holds where it speaks.
impl<T: Copy> Join for Option<T> {
    ghost none = { None };

    ghost joined = { λ older newer. option_or newer older };

    ghost Fits = { λ _. Unit {0} };

    fn none() -> Self {
        None
    }

    fn join(self, newer: Self) -> Self {
        newer.or(self)
    }

    ghost joined_none = { λ given. refl };

    ghost none_joined = { elim [ None ↦ refl | Some x ↦ refl ] };

    ghost associative = { λ a b. elim [ None ↦ refl | Some x ↦ refl ] };

    ghost parts_fit = { λ a b fits. (tt, tt) };
}

/// Amounts add up.
impl Join for u64 {
    ghost none = { 0 };

    ghost joined = { λ older newer. older + newer };

    ghost Fits = { λ amount. amount < 2 ^ 64 };

    fn none() -> Self {
        0
    }

    fn join(self, newer: Self) -> Self {
        self + newer
    }

    ghost joined_none = { add-zero };

    ghost none_joined = { zero-add };

    ghost associative = { add_assoc };

    ghost parts_fit = { λ a b fits. (lt_of_le_of_lt (le-add_right a b) fits, lt_of_le_of_lt (le-add_left b a) fits) };
}
