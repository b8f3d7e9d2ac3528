// What a plan refuses, by number, as the numbers are published and callers print them. A refused call changes nothing.
use crate::fixture::Fixture;
use crate::make::*;
use books::{DayBook, DayPost};
use plan::{Board, Plan};
use policies::FirstCome;
use std::test::Fail;
use windows::{Span, SpanRow};

// The number that the making of a plan is refused with, or 0, where the store has 64 places.
fn making(book: DayBook, rows: &mut [SpanRow]) -> u8 {
    let mut store = [span(0, 0); 64];
    let board = Board::<Span> {
        rows,
        store: &mut store,
    };
    let (_plan, refusal) = Plan::make(book, FirstCome::new(), &board);
    refusal.map_or(0, |refused| refused.number())
}

#[test]
fn windows_and_store(rt: HostRuntime) {
    let none = DayBook::new();
    let wrong = (
        making(none, &mut []),
        making(none, &mut [span(5, 4)]),
        making(none, &mut [span(1, 1); 65]),
    );
    assert_eq!(rt; wrong, (1, 1, 1));
    let few = making(none, &mut [span(1, 1); 4]);
    assert_eq!(rt; (few, making(none, &mut [span(1, 1); 5])), (0, 2));
}

#[test]
fn reach(rt: HostRuntime) -> Result<(), Fail> {
    let reaching = book(&[DayPost::Differ(0, 1)], 2)?;
    let short = making(reaching, &mut [span(1, 1)]);
    assert_eq!(rt; (short, making(reaching, &mut [span(1, 1); 2])), (3, 0));
    Ok(())
}

// The number that the posting of a rule for two windows is refused with, or 0.
fn posting(rule: DayPost) -> Result<u8, u8> {
    match Fixture::new([span(0, 9); 2])?.post(rule) {
        Ok(_) => Ok(0),
        Err(number) => Ok(number),
    }
}

#[test]
fn at_posting(rt: HostRuntime) {
    let asked = [
        (sum(0, 0, [term(1, 0); 3]), 5),
        (sum(0, 9, [term(1, 0); 3]), 5),
        (two(term(1, 0), term(1, 2), 0), 6),
        (two(term(0, 1), term(1, 1), 0), 7),
        (two(term(1, 0), term(0, 1), 0), 8),
        (two(term(10_001, 0), term(1, 1), 0), 8),
        (two(term(1, 0), term(1, 1), 1_000_000_001), 9),
        (two(term(1, 0), term(1, 1), 1_000_000_000), 0),
    ];
    for (sum, number) in asked {
        assert_eq!(rt; posting(DayPost::SumAtMost(sum)), Ok(number));
    }
    assert_eq!(rt; posting(DayPost::Differ(0, 2)), Ok(6));
    assert_eq!(rt; posting(DayPost::Same(1, 1)), Ok(7));
}

#[test]
fn full_book(rt: HostRuntime) -> Result<(), Fail> {
    let mut day = Fixture::new([span(0, 9); 2])?;
    for number in 0..64 {
        assert_eq!(rt; day.post(DayPost::Differ(0, 1)), Ok(number));
    }
    assert_eq!(rt; day.post(DayPost::Differ(0, 0)), Err(4));
    Ok(())
}

#[test]
fn other_board(rt: HostRuntime) -> Result<(), Fail> {
    let mut day = Fixture::new([span(0, 9); 2])?;
    day.lent = 1;
    assert_eq!(rt; day.post(DayPost::Differ(0, 1)), Err(3));
    assert_eq!(rt; (day.cut(0, 0, 4), day.settle()), (Err(3), Err(3)));
    assert_eq!(rt; day.show(0), Err(3));
    day.lent = 2;
    assert_eq!(rt; day.show(0), Ok((0, 9)));
    Ok(())
}

#[test]
fn no_such_window(rt: HostRuntime) -> Result<(), Fail> {
    let mut day = Fixture::new([span(0, 9); 2])?;
    assert_eq!(rt; (day.cut(2, 0, 4), day.show(2)), (Err(6), Err(6)));
    assert_eq!(rt; (day.show(0), day.show(1)), (Ok((0, 9)), Ok((0, 9))));
    Ok(())
}

// A keep that is refused leaves its mark open, so sixteen are open here.
#[test]
fn sixteen_marks(rt: HostRuntime) -> Result<(), Fail> {
    let mut day = Fixture::new([span(0, 9); 2])?;
    for _ in 0..16 {
        let mark = day.mark()?;
        day.lent = 0;
        assert_eq!(rt; day.keep(mark), Err(1));
        day.lent = 2;
    }
    match day.mark() {
        Ok(mark) => {
            assert_eq!(rt; day.keep(mark), Err(11));
            Ok(())
        },
        Err(number) => {
            assert_eq!(rt; number, 11);
            Ok(())
        },
    }
}
