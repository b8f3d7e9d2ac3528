// Marks: a mark is kept or taken back on every way out, so the answers are gathered first and checked afterwards.
use crate::fixture::Fixture;
use crate::make::*;
use books::DayPost;
use plan::{Closing, Cutting, Verdict};
use std::test::Fail;

#[test]
fn take_back(rt: HostRuntime) -> Result<(), Fail> {
    let mut day = Fixture::new([span(0, 9); 2])?;
    let mark = day.mark()?;
    let cut = day.cut(0, 20, 30);
    let hidden = day.show(0);
    let back = day.take_back(mark);
    assert_eq!(rt; (cut, back), (Ok(Cutting::Impossible), Ok(Closing::Done)));
    assert_eq!(rt; (hidden, day.show(0)), (Err(14), Ok((0, 9))));
    Ok(())
}

#[test]
fn keep(rt: HostRuntime) -> Result<(), Fail> {
    let mut day = Fixture::new([span(0, 9); 2])?;
    let mark = day.mark()?;
    let cut = day.cut(0, -5, 4);
    let again = day.cut(0, -5, 4);
    let kept = day.keep(mark);
    assert_eq!(rt;
        (cut, again, kept),
        (
            Ok(Cutting::Changed),
            Ok(Cutting::Unchanged),
            Ok(Closing::Done),
        )
    );
    assert_eq!(rt; day.show(0), Ok((0, 4)));
    Ok(())
}

// Taking an earlier mark back ends the later one.
#[test]
fn later_mark(rt: HostRuntime) -> Result<(), Fail> {
    let mut day = Fixture::new([span(0, 9); 2])?;
    let earlier = day.mark()?;
    let cut = day.cut(0, 0, 4);
    let later = day.mark();
    let back = day.take_back(earlier);
    let ended = day.take_back(later?);
    assert_eq!(rt;
        (cut, back, ended),
        (Ok(Cutting::Changed), Ok(Closing::Done), Err(13))
    );
    assert_eq!(rt; day.show(0), Ok((0, 9)));
    Ok(())
}

// A rule that was posted under a mark is taken back with it.
#[test]
fn posted_rule(rt: HostRuntime) -> Result<(), Fail> {
    let mut day = Fixture::new([span(4, 4), span(4, 9)])?;
    let before = day.post(DayPost::Same(0, 1));
    let mark = day.mark()?;
    let under = day.post(DayPost::Differ(0, 1));
    let failed = day.settle();
    let back = day.take_back(mark);
    let after = day.post(DayPost::Same(1, 0));
    let (steps, rule, window) = (2, 1, 0);
    assert_eq!(rt;
        failed,
        Ok(Verdict::Impossible {
            steps,
            rule,
            window,
        })
    );
    assert_eq!(rt; (before, under, after), (Ok(0), Ok(1), Ok(1)));
    assert_eq!(rt; (back, day.show(1)), (Ok(Closing::Done), Ok((4, 9))));
    Ok(())
}

// A cut that is tried out leaves the plan as it was.
#[test]
fn tried(rt: HostRuntime) -> Result<(), Fail> {
    let mut day = Fixture::new([span(4, 9); 2])?;
    assert_eq!(rt; day.post(DayPost::Differ(0, 1)), Ok(0));
    assert_eq!(rt; day.try_cut(0, 4, 4), Ok(Verdict::Settled { steps: 2 }));
    assert_eq!(rt; day.try_cut(2, 4, 4), Err(6));
    assert_eq!(rt; (day.show(0), day.show(1)), (Ok((4, 9)), Ok((4, 9))));
    Ok(())
}
