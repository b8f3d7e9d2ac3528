// A copy of a book, a bounded list or a policy is made without memory being asked for, and holds the same.
use books::{DayBook, DayPost, DayRule};
use bounded::BoundedList;
use policies::{FirstCome, LowestFirst, Policy};
use rulebook::RuleBook;
use rules::Book;
use std::test::Fail;

#[test]
fn copied_book(rt: HostRuntime) -> Result<(), Fail> {
    let mut book: Book<DayRule> = Book::new();
    assert_eq!(rt; book.post(DayPost::Differ(0, 1), 2), Ok(0));
    let mut copy = book.clone()?;
    assert_eq!(rt; copy.post(DayPost::Same(0, 2), 3), Ok(1));
    assert_eq!(rt; (book.count(), book.reach()), (1, 2));
    assert_eq!(rt; (copy.count(), copy.reach()), (2, 3));
    Ok(())
}

#[test]
fn copied_day_book(rt: HostRuntime) -> Result<(), Fail> {
    let mut book = DayBook::new();
    assert_eq!(rt; book.post(DayPost::Product(0, 1, 2), 3), Ok(0));
    let copy = book.clone()?;
    assert_eq!(rt; (copy.count(), copy.reach()), (1, 3));
    Ok(())
}

#[test]
fn copied_list(rt: HostRuntime) -> Result<(), Fail> {
    let mut list: BoundedList<u8, 2> = BoundedList::new();
    assert_eq!(rt; list.push(7), Some(0));
    let mut copy = list.clone()?;
    assert_eq!(rt; (copy.push(8), copy.push(9)), (Some(1), None));
    assert_eq!(rt; (list.len(), copy.len()), (1, 2));
    assert_eq!(rt; (copy.remove(0), copy.remove(1)), (Some(7), None));
    Ok(())
}

#[test]
fn copied_policies(rt: HostRuntime) -> Result<(), Fail> {
    let mut first = FirstCome::new();
    let mut lowest = LowestFirst::new();
    for rule in [5, 3] {
        first.put(rule);
        lowest.put(rule);
    }
    let mut copies = (first.clone()?, lowest.clone()?);
    assert_eq!(rt; (copies.0.take(), copies.1.take()), (Some(5), Some(3)));
    assert_eq!(rt; (first.take(), lowest.take()), (Some(5), Some(3)));
    Ok(())
}
