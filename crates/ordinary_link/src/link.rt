ghost use Rattle.std.specs.Prelude.{◌≡◌, ◌≤◌, min};

/// What a link carries in a step, in parts, where its upstream cell can send `s` and its downstream
/// cell can receive `r` (Daganzo 1995).
pub fn link_flow(s: u64, r: u64) -> u64
    ensures flow { result ≡ min s r }
    ensures sent { result ≤ s }
    ensures received { result ≤ r }
{
    s.min(r)
}
