ghost use Rattle.std.specs.Prelude.{◌≡◌, ◌<◌, ◌≤◌, ◌^◌, ℕ, false, true, get_or, length};

/// The least number of a cell not placed, from one on, or the number of cells.
pub(crate) fn first_free(placed: &[bool], from: u32) -> u32
    requires few { length placed.now < 2 ^ 32 }
    requires from { from ≤ length placed.now }
    ensures within { result ≤ length placed.now }
    ensures full { (i : ℕ) → from ≤ i → i < result → get_or placed.now i false ≡ true }
    ensures free { result < length placed.now → get_or placed.now result false ≡ false }
{
    for i in from..placed.len() as u32 {
        if !placed[i as usize] {
            return i;
        }
    }
    placed.len() as u32
}
