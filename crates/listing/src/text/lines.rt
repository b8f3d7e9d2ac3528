// The head and the lines of a listing.
ghost use Rattle.std.specs.Prelude.{◌≡◌, ◌+◌, ◌≤◌, [], length};
ghost use Rattle.arrayvec.specs.ArrayString.{array_string_len};
ghost use Rattle.listing.specs.Lines.{head_line, word, fielded, line, lines, listing, printed};

use super::{Text, push_number};
use crate::shown::{Fields, Shown};
use itoa::Buffer;
use plan::Verdict;

// The fields of a row, each with a space behind it. How much room is left stands in this `requires` and in the
// two below: each piece of a line has a bound of its own, so no type of texts holds them all.
fn write_fields(text: &mut Text, digits: &mut Buffer, fields: Fields)
    requires { array_string_len text.old + 24 ≤ 8192 }
    ensures bytes { text.new.bytes ≡ fielded text.old.bytes fields }
    ensures bound { array_string_len text.new ≤ array_string_len text.old + 24 }
{
    match fields {
        Fields::Ends(lo, hi) => {
            push_number(text, digits, lo, " ");
            push_number(text, digits, hi, " ");
        }
    }
}

// The first line: how the settling ended. The text is lent, here and below, since a text that is handed on is copied.
fn write_head(text: &mut Text, digits: &mut Buffer, verdict: Verdict)
    requires { text.old.bytes ≡ [] }
    ensures bytes { text.new.bytes ≡ head_line [] verdict }
    ensures bound { array_string_len text.new ≤ 80 }
{
    match verdict {
        Verdict::Settled { steps } => {
            text.push_str("settled ");
            push_number(text, digits, steps, "\n");
        }
        Verdict::Impossible {
            steps,
            rule,
            window,
        } => {
            text.push_str("impossible ");
            push_number(text, digits, steps, " ");
            push_number(text, digits, rule, " ");
            push_number(text, digits, window, "\n");
        }
    }
}

// The word for a window: as given, one number left, or neither.
fn word_for(same: bool, one: bool) -> &'static str
    ensures bytes { result.now ≡ word same one }
    ensures bound { length result.now ≤ 5 }
{
    if same {
        "open"
    } else if one {
        "fixed"
    } else {
        "cut"
    }
}

// The line of window i, beside what the sheet gave. The text and the buffer of its digits are lent apart, which makes five
// parameters: a struct of the two would stand in each clause.
fn write_line<R: Shown>(text: &mut Text, digits: &mut Buffer, i: usize, row: &R, given: &R)
    requires { array_string_len text.old + 80 ≤ 8192 }
    ensures bytes { text.new.bytes ≡ line R.Shown.look text.old.bytes i row.now given.now }
    ensures bound { array_string_len text.new ≤ array_string_len text.old + 80 }
{
    push_number(text, digits, i, " ");
    write_fields(text, digits, row.fields());
    text.push_str(word_for(row.is_same(given), row.is_one()));
    text.push_str("\n");
}

// A line for each window, 64 at most.
fn write_lines<R: Shown>(text: &mut Text, digits: &mut Buffer, rows: &[R], given: &[R])
    requires { array_string_len text.old ≤ 80 }
    ensures { text.new.bytes ≡ lines R.Shown.look text.old.bytes 64 0 rows.now given.now }
{
    for (i, (row, given)) in rows.iter().zip(given).take(64).enumerate() {
        write_line(text, digits, i, row, given);
    }
}

// The head, and the lines where it was settled.
fn write_listing<R: Shown>(text: &mut Text, verdict: Verdict, rows: &[R], given: &[R])
    requires { text.old.bytes ≡ [] }
    ensures { text.new.bytes ≡ listing R.Shown.look verdict rows.now given.now }
{
    let mut digits = Buffer::new();
    write_head(text, &mut digits, verdict);
    if let Verdict::Settled { .. } = verdict {
        write_lines(text, &mut digits, rows, given);
    }
}

// Writes the listing to the front of `out` and answers its length; none, and nothing written, where it does not fit.
pub fn print_listing<R: Shown>(
    verdict: Verdict,
    rows: &[R],
    given: &[R],
    out: &mut [u8],
) -> Option<usize>
    ensures { printed (listing R.Shown.look verdict rows.now given.now) out.old ≡ record { answer = result; after = out.new } }
{
    let mut text = Text::new();
    write_listing(&mut text, verdict, rows, given);
    let n = text.len();
    if n > out.len() {
        return None;
    }
    out[..n].copy_from_slice(text.as_bytes());
    Some(n)
}
