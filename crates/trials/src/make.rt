// What the tests are made of.
use books::{DayBook, DayPost};
use plan::{Board, Plan, PlanRefusal, Verdict};
use policies::Policy;
use rulebook::{BookRefusal, RuleBook};
use sums::{PostedSum, Term};
use windows::{Span, SpanRow};

pub fn span(lo: i32, hi: i32) -> SpanRow {
    SpanRow { lo, hi }
}

pub fn term(weight: i32, window: usize) -> Term {
    Term { window, weight }
}

// A sum of so many of three terms.
pub fn sum(bound: i32, count: usize, terms: [Term; 3]) -> PostedSum {
    let [a, b, c] = terms;
    PostedSum {
        bound,
        terms: [a, b, c, c, c, c, c, c],
        count,
    }
}

pub fn two(first: Term, second: Term, bound: i32) -> PostedSum {
    sum(bound, 2, [first, second, second])
}

pub fn three(first: Term, second: Term, third: Term, bound: i32) -> PostedSum {
    sum(bound, 3, [first, second, third])
}

// A book of these rules for n windows.
pub fn book(posts: &[DayPost], n: usize) -> Result<DayBook, BookRefusal> {
    let mut book = DayBook::new();
    for post in posts {
        book.post(*post, n)?;
    }
    Ok(book)
}

// The lowest and the highest number of three windows.
pub type Ends = [(i32, i32); 3];

fn ends(rows: [SpanRow; 3]) -> Ends {
    let [a, b, c] = rows;
    [(a.lo, a.hi), (b.lo, b.hi), (c.lo, c.hi)]
}

// What a plan of these rules answers when it settles three windows, and what it leaves of them.
pub fn settled<P: Policy + Drop>(
    book: DayBook,
    policy: P,
    windows: Ends,
) -> Result<(Verdict, Ends), PlanRefusal> {
    let [(a, b), (c, d), (e, f)] = windows;
    let mut rows = [span(a, b), span(c, d), span(e, f)];
    let mut store = [span(0, 0); 48];
    let mut board = Board::<Span> {
        rows: &mut rows,
        store: &mut store,
    };
    let (mut plan, refusal) = Plan::make(book, policy, &board);
    // a making answers its plan beside the refusal, so no `?`
    if let Some(refused) = refusal {
        return Err(refused);
    }
    let verdict = plan.settle(&mut board)?;
    Ok((verdict, ends(rows)))
}
