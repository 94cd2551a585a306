ghost use Rattle.std.specs.Prelude.{◌≡◌, Some, None, MatchOption};
ghost use Rattle.saved_run.specs.Fronts.{behind, counted_line_at, field_at, row_line_at};

use crate::number::{digits, number};
use crate::row_line::RowLine;
use flow_model::Row;

/// What follows a word at the front of a text.
#[tactic(auto, unfolding(crate::specs::Fronts::behind))]
pub(crate) fn behind<'a>(word: &[u8], text: &'a [u8]) -> Option<&'a [u8]>
    ensures { MatchOption result (behind word.now text.now ≡ None) (λ rest. behind word.now text.now ≡ Some rest.now) }
{
    text.strip_prefix(word)
}

/// The number behind a comma at the front of a text, and what follows it.
#[tactic(auto, unfolding(crate::specs::Fronts::field_at))]
pub(crate) fn field(text: &[u8]) -> Option<(u64, &[u8])>
    ensures { MatchOption result (field_at text.now ≡ None)
        (λ found. field_at text.now ≡ Some (record { value = found.0; rest = found.1.now })) }
{
    let text = behind(b",", text)?;
    let count = digits(text);
    let value = number(&text[..count])?;
    Some((value, &text[count..]))
}

/// The count of a line of a word and a count, and what follows the line.
#[tactic(auto, unfolding(crate::specs::Fronts::counted_line_at))]
pub(crate) fn counted_line<'a>(word: &[u8], text: &'a [u8]) -> Option<(u64, &'a [u8])>
    ensures { MatchOption result (counted_line_at word.now text.now ≡ None)
        (λ found. counted_line_at word.now text.now ≡ Some (record { value = found.0; rest = found.1.now })) }
{
    let text = behind(word, text)?;
    let (count, text) = field(text)?;
    let text = behind(b"\n", text)?;
    Some((count, text))
}

/// What a row line at the front of a text says, and what follows it.
#[tactic(auto, unfolding(crate::specs::Fronts::row_line_at))]
pub(crate) fn row_line(text: &[u8]) -> Option<(RowLine, &[u8])>
    ensures { MatchOption result (row_line_at text.now ≡ None)
        (λ found. row_line_at text.now ≡ Some (record { value = found.0; rest = found.1.now })) }
{
    let text = behind(b"row", text)?;
    let (region, text) = field(text)?;
    let (n, text) = field(text)?;
    let (come, text) = field(text)?;
    let (gone, text) = field(text)?;
    let (wait, text) = field(text)?;
    let (earlier, text) = field(text)?;
    let text = behind(b"\n", text)?;
    let row = Row {
        n,
        come,
        gone,
        wait,
    };
    let line = RowLine {
        region,
        row,
        earlier,
    };
    Some((line, text))
}
