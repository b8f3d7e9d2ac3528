// Worked examples, under both policies.
use crate::make::*;
use books::DayPost;
use plan::Verdict;
use policies::{FirstCome, LowestFirst};
use std::process::Abort;
use std::test::Fail;

// Checks the steps and the windows that a settling leaves, under both policies: a struct of the five
// parameters would be made and taken apart here alone.
fn check_settled(
    rt: &impl Abort,
    rule: DayPost,
    windows: Ends,
    steps: u64,
    left: Ends,
) -> Result<(), Fail> {
    let book = book(&[rule], 3)?;
    let wanted = Ok((Verdict::Settled { steps }, left));
    assert_eq!(rt; settled(book, FirstCome::new(), windows), wanted);
    assert_eq!(rt; settled(book, LowestFirst::new(), windows), wanted);
    Ok(())
}

#[test]
fn sum_at_most(rt: HostRuntime) -> Result<(), Fail> {
    let rule = DayPost::SumAtMost(three(term(3, 0), term(4, 1), term(-5, 2), 7));
    let given = [(0, 20), (1, 2), (0, 1)];
    check_settled(&rt, rule, given, 2, [(0, 2), (1, 2), (0, 1)])
}

#[test]
fn sum_equals(rt: HostRuntime) -> Result<(), Fail> {
    let rule = DayPost::SumEquals(two(term(1, 1), term(-1, 0), 40));
    let given = [(540, 660), (600, 645), (3, 3)];
    check_settled(&rt, rule, given, 2, [(560, 605), (600, 645), (3, 3)])
}

// A division toward zero would leave -3.
#[test]
fn rounds_down(rt: HostRuntime) -> Result<(), Fail> {
    let rule = DayPost::SumAtMost(sum(-7, 1, [term(2, 0); 3]));
    let given = [(-9, 9), (0, 0), (0, 0)];
    check_settled(&rt, rule, given, 2, [(-9, -4), (0, 0), (0, 0)])
}

#[test]
fn differ(rt: HostRuntime) -> Result<(), Fail> {
    let rule = DayPost::Differ(0, 1);
    let given = [(4, 9), (4, 4), (0, 0)];
    check_settled(&rt, rule, given, 2, [(5, 9), (4, 4), (0, 0)])?;
    let inner = [(4, 9), (6, 6), (0, 0)];
    check_settled(&rt, rule, inner, 1, inner)
}

#[test]
fn same(rt: HostRuntime) -> Result<(), Fail> {
    let rule = DayPost::Same(0, 1);
    let given = [(0, 9), (4, 12), (0, 0)];
    check_settled(&rt, rule, given, 2, [(4, 9), (4, 9), (0, 0)])
}

// The steps depend on the policy, and the rule and the window where it fails do not.
#[test]
fn impossible(rt: HostRuntime) -> Result<(), Fail> {
    let below = DayPost::SumAtMost(two(term(1, 0), term(-1, 1), -1));
    let above = DayPost::SumAtMost(two(term(1, 1), term(-1, 0), -1));
    let book = book(&[below, above], 3)?;
    let given = [(0, 9), (0, 9), (0, 0)];
    let (first, _) = settled(book, FirstCome::new(), given)?;
    let (lowest, _) = settled(book, LowestFirst::new(), given)?;
    assert_eq!(rt; (first, lowest), (failed(6), failed(9)));
    Ok(())
}

// Rule 1 emptied window 0.
fn failed(steps: u64) -> Verdict {
    Verdict::Impossible {
        steps,
        rule: 1,
        window: 0,
    }
}
