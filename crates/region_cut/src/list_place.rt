ghost use Rattle.std.specs.Prelude.{◌≡◌, ◌≢◌, ◌==◌, ◌<◌, ◌^◌, ℕ, MatchOption, length, slice_index, true};
ghost use Rattle.std.specs.List.{list_any, position_or_len};
ghost use Rattle.std.specs.List.Sorted.{IsStrictlyIncreasing};

/// The place of a number in an increasing list that has it, counted from 0. In a list without gaps it is found at once; in
/// any other the time that it takes grows with the logarithm of the list's length.
pub fn place(list: &[u32], number: u32) -> u32
    requires few { length list.now < 2 ^ 32 }
    requires increasing { IsStrictlyIncreasing list.now }
    requires listed { list_any (λ j. j == number) list.now ≡ true }
    ensures { result ≡ position_or_len (λ j. j == number) list.now }
{
    match place_if_listed(list, number) {
        Some(place) => place,
        None => 0,
    }
}

/// The place of a number in an increasing list, as `place` finds it, or nothing where the list doesn't have the number.
pub fn place_if_listed(list: &[u32], number: u32) -> Option<u32>
    requires few { length list.now < 2 ^ 32 }
    requires increasing { IsStrictlyIncreasing list.now }
    ensures { MatchOption result ((p : ℕ) → p < length list.now → slice_index list.now p ≢ number)
        (λ p. (p < length list.now) × (slice_index list.now p ≡ number)) }
{
    let [first, ..] = list else {
        return None;
    };
    let guess = number.saturating_sub(*first);
    if (guess as usize) < list.len() && list[guess as usize] == number {
        return Some(guess);
    }
    match list.binary_search(&number) {
        Ok(place) => Some(place as u32),
        Err(_) => None,
    }
}
