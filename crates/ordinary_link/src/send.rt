ghost use Rattle.std.specs.Prelude.{◌≡◌, ◌≤◌};
ghost use Rattle.ordinary_link.specs.Flows.{sending_flow};

/// What a cell that holds `n` parts can send in a step whose capacity is `q` parts: `S` of Daganzo
/// (1995). A cell that is not green sends nothing.
pub fn sending(n: u64, q: u64, green: bool) -> u64
    ensures flow { result ≡ sending_flow n q green }
    ensures held { result ≤ n }
    ensures capacity { result ≤ q }
{
    if green { q.min(n) } else { 0 }
}
