// Reads a sheet from the standard input, settles it, and prints its listing, or one line that says why it was refused.
#![tactic(auto)]

use books::DayBook;
use sheet::{Fault, Lent, Read};
use std::io;
use std::io::Read as _;
use windows::SpanRow;

// The longest sheet, and one byte more to tell that a sheet is too long.
const MOST_BYTES: u64 = 61_441;

// Room for the longest listing: a head, and 64 lines of at most 32 bytes.
const MOST_TEXT: usize = 4_096;

// Answers the length of a sheet's listing, which it writes to the front of `out`.
fn list(bytes: &[u8], lent: &mut Lent, out: &mut [u8]) -> Result<usize, Fault> {
    let sheet = Read::whole(bytes, lent)?;
    let verdict = sheet.settle(lent)?;
    sheet.print(verdict, lent, out)
}

fn main(rt: HostRuntime) -> io::Result<()> {
    let heap = rt.alloc();
    let mut input = Vec::new(heap);
    rt.stdin().take(MOST_BYTES).read_to_end(&mut input)?;
    let none = SpanRow { lo: 0, hi: 0 };
    let mut book = DayBook::new();
    let mut rows = vec![in heap; none; 64]?;
    let mut store = vec![in heap; none; 1024]?;
    let mut out = vec![in heap; 0u8; MOST_TEXT]?;
    let mut lent = Lent {
        book: &mut book,
        rows: &mut rows,
        store: &mut store,
    };
    match list(&input, &mut lent, &mut out) {
        Ok(length) => {
            out.truncate(length);
            rt.write_all(&out)
        }
        Err(fault) => println!(rt; "{fault}"),
    }
}
