ghost use Rattle.std.specs.Prelude.{◌≡◌, IsTrue, length};
ghost use Rattle.chain_order.specs.Inverse.{LeadsBack};

/// Whether two lists of so many indices lead to each other.
pub(crate) fn are_inverse(count: usize, placed: &[u32], places: &[u32]) -> bool
    ensures long { IsTrue result → length placed.now ≡ count }
    ensures place_each { IsTrue result → length places.now ≡ count }
    ensures there { IsTrue result → LeadsBack placed.now places.now }
    ensures back { IsTrue result → LeadsBack places.now placed.now }
{
    placed.len() == count
        && places.len() == count
        && leads_back(placed, places)
        && leads_back(places, placed)
}

// Whether each number of the one list is an index of the other, at which its own index stands.
fn leads_back(there: &[u32], back: &[u32]) -> bool
    ensures { IsTrue result → LeadsBack there.now back.now }
{
    for (p, m) in there.iter().enumerate() {
        if *m as usize >= back.len() || back[*m as usize] as usize != p {
            return false;
        }
    }
    true
}
