ghost use Rattle.std.specs.Prelude.{◌≡◌, ◌==◌, ◌≤◌, ◌∷◌, drop, length, position, take};
ghost use Rattle.plan_choice.specs.Pieces.{is_separator, lines_in};

/// How long the first line of a text is, with the line feed that ends it.
pub(crate) fn first_line(text: &[u8]) -> usize
    requires { 1 ≤ length text.now }
    ensures some { 1 ≤ result }
    ensures inside { result ≤ length text.now }
    ensures line { lines_in text.now ≡ take result text.now ∷ lines_in (drop result text.now) }
{
    match line_feed(text) {
        Some(at) => at + 1,
        None => text.len(),
    }
}

// Where the first line feed stands.
fn line_feed(text: &[u8]) -> Option<usize>
    ensures { result ≡ position (λ byte. byte == 10) text.now }
{
    text.iter().position(|byte| *byte == b'\n')
}

/// Whether a line is a separator.
#[tactic(auto, unfolding(crate::specs::Pieces::is_separator))]
pub(crate) fn is_separator(line: &[u8]) -> bool
    ensures { result ≡ is_separator line.now }
{
    line == b"==\n".as_slice() || line == b"==\r\n".as_slice() || line == b"==".as_slice()
}
