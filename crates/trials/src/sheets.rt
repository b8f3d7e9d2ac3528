// Sheets, from their bytes to their listing.
use books::DayBook;
use sheet::{Fault, Lent, Open, Read};
use std::test::Fail;
use windows::SpanRow;

// Three windows, [540..660], [600..645] and [3..3], and the rule v1 - v0 = 40.
const DAY: [u8; 59] = [
    1, 0, 1, 0, 1, // spans
    8, 0, 2, 0, 28, 2, 0, 0, 148, 2, 0, 0, // [540..660]
    8, 0, 2, 0, 88, 2, 0, 0, 133, 2, 0, 0, // [600..645]
    8, 0, 2, 0, 3, 0, 0, 0, 3, 0, 0, 0, // [3..3]
    14, 0, 4, 0, 40, 0, 0, 0, 1, 1, 0, 0, 0, 0, 255, 255, 255, 255,
];

const LISTING: &[u8; 50] = b"settled 2\n0 560 605 cut\n1 600 645 open\n2 3 3 open\n";

const ROOM: [SpanRow; 1024] = [SpanRow { lo: 0, hi: 0 }; 1024];

// Reads, settles and prints a sheet.
fn list(bytes: &[u8], out: &mut [u8]) -> Result<usize, Fault> {
    let mut book = DayBook::new();
    let mut rows = ROOM;
    let mut store = ROOM;
    let mut lent = Lent {
        book: &mut book,
        rows: &mut rows,
        store: &mut store,
    };
    let sheet = Read::whole(bytes, &mut lent)?;
    let verdict = sheet.settle(&mut lent)?;
    sheet.print(verdict, &lent, out)
}

// The number and the byte that a sheet is refused with, or its length where it is not.
fn refusal(bytes: &[u8]) -> (u8, usize) {
    match list(bytes, &mut [0; 64]) {
        Ok(_) => (0, bytes.len()),
        Err(fault) => (fault.number(), fault.at),
    }
}

#[test]
fn listed(rt: HostRuntime) {
    let mut out = [0; 50];
    match list(&DAY, &mut out) {
        Ok(length) => assert_eq!(rt; length, 50),
        Err(fault) => assert_eq!(rt; fault.number(), 0),
    }
    assert!(rt; out == *LISTING);
}

#[test]
fn no_room(rt: HostRuntime) {
    let mut out = [7; 49];
    match list(&DAY, &mut out) {
        Ok(length) => assert_eq!(rt; length, 0),
        Err(fault) => assert_eq!(rt; (fault.number(), fault.at), (27, 59)),
    }
    assert!(rt; out == [7; 49]);
}

#[test]
fn refused_records(rt: HostRuntime) {
    assert_eq!(rt; refusal(&DAY[0..7]), (21, 5));
    assert_eq!(rt; refusal(&DAY[0..16]), (22, 5));
    assert_eq!(rt; refusal(&[1, 0, 1, 0, 2]), (24, 0));
    assert_eq!(rt; refusal(&[1, 0, 1, 0, 1, 3, 0, 6, 0, 0, 1, 2]), (23, 5));
    assert_eq!(rt; refusal(&[1, 0, 1, 0, 1]), (1, 5));
}

#[test]
fn finished_early(rt: HostRuntime) -> Result<(), Fail> {
    // lent by this test itself, as in `list`: a function hands out no loan of its locals
    let mut book = DayBook::new();
    let mut rows = ROOM;
    let mut store = ROOM;
    let mut lent = Lent {
        book: &mut book,
        rows: &mut rows,
        store: &mut store,
    };
    match Open::open(&DAY, &mut lent) {
        Ok(open) => match open.finish(&DAY) {
            Ok(_read) => Err(Fail::new("finished")),
            Err((_open, fault)) => {
                assert_eq!(rt; (fault.number(), fault.at), (26, 0));
                Ok(())
            },
        },
        Err(fault) => {
            assert_eq!(rt; fault.number(), 0);
            Ok(())
        },
    }
}
