// One record of a sheet: its head, its kind, and its payload as a part of the input.
ghost use Rattle.std.specs.Prelude.{◌≡◌, ◌+◌, ◌≤◌, length, IfSome, IfOk};
ghost use Rattle.records.specs.Records.{front, seen, sorted, plainly, record_at, handed};

use crate::refusal::SheetRefusal;

// How far a sheet was read, as far as it decides which record may come.
#[derive(Clone, Copy, PartialEq)]
pub enum Stage {
    // nothing but notes
    Blank,
    // the kind, and maybe windows
    Windows,
    // a rule
    Rules,
}

// A record, by its kind; each case holds the payload as it stands in the input.
#[derive(Clone, Copy)]
pub enum Record<'a> {
    Kind(&'a [u8]),
    Span(&'a [u8]),
    SumEquals(&'a [u8]),
    SumAtMost(&'a [u8]),
    Differ(&'a [u8]),
    Same(&'a [u8]),
    Note(&'a [u8]),
}

// A record and where it stands: `at` is its first byte, `next` the first byte behind it.
#[derive(Clone, Copy)]
pub struct Placed<'a> {
    pub record: Record<'a>,
    // a number, since a note may have any from 32,768 up
    pub kind: u16,
    pub at: usize,
    pub next: usize,
}

// The kind and the payload at the front of `rest`, or none where no byte is left.
fn front(rest: &[u8]) -> Result<Option<(u16, &[u8])>, SheetRefusal>
    ensures value { seen result ≡ front rest.now }
    ensures within { IfOk result (λ o. IfSome o (λ p. 4 + length p.1.now ≤ length rest.now)) }
{
    match rest {
        [] => Ok(None),
        [a, b, c, d, rest @ ..] => {
            let len = u16::from_le_bytes([*a, *b]) as usize;
            let kind = u16::from_le_bytes([*c, *d]);
            let payload = rest.get(..len).ok_or(SheetRefusal::Payload)?;
            Ok(Some((kind, payload)))
        }
        _ => Err(SheetRefusal::Head),
    }
}

// The record of a known kind, of the right length and in its place: here a number becomes a kind.
fn sort(stage: Stage, kind: u16, payload: &[u8]) -> Result<Record<'_>, SheetRefusal>
    ensures { plainly result ≡ sorted stage kind payload.now }
{
    let len = payload.len();
    match kind {
        1 if len != 1 => Err(SheetRefusal::Length),
        1 if stage != Stage::Blank => Err(SheetRefusal::Place),
        1 => Ok(Record::Kind(payload)),
        2 if len != 8 => Err(SheetRefusal::Length),
        2 if stage != Stage::Windows => Err(SheetRefusal::Place),
        2 => Ok(Record::Span(payload)),
        4 | 5 if len < 4 || (len - 4) % 5 != 0 => Err(SheetRefusal::Length),
        4 | 5 if stage == Stage::Blank => Err(SheetRefusal::Place),
        4 => Ok(Record::SumEquals(payload)),
        5 => Ok(Record::SumAtMost(payload)),
        7 | 8 if len != 2 => Err(SheetRefusal::Length),
        7 | 8 if stage == Stage::Blank => Err(SheetRefusal::Place),
        7 => Ok(Record::Differ(payload)),
        8 => Ok(Record::Same(payload)),
        32768..=65535 => Ok(Record::Note(payload)),
        _ => Err(SheetRefusal::Unknown),
    }
}

// The record at `at`, handed out with its place; none where no byte is left there.
pub fn record_at<'a>(
    bytes: &'a [u8],
    at: usize,
    stage: Stage,
) -> Result<Option<Placed<'a>>, SheetRefusal>
    ensures { handed result ≡ record_at bytes.now at stage }
{
    let rest = bytes.get(at..).unwrap_or(&[]);
    let Some((kind, payload)) = front(rest)? else {
        return Ok(None);
    };
    let record = sort(stage, kind, payload)?;
    Ok(Some(Placed {
        record,
        kind,
        at,
        next: at + 4 + payload.len(),
    }))
}
