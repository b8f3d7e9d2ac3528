// A plan over two windows, whose calls answer a refusal by its number.
use books::{DayBook, DayPost};
use plan::{Board, Closing, Cutting, Mark, Plan, PlanRefusal, Verdict, try_cut};
use policies::FirstCome;
use rulebook::RuleBook;
use windows::{Span, SpanRow, Window};

// The plan, its board's rows and store, and how many of the rows are lent to each call.
#[derive(Drop)]
pub struct Fixture {
    plan: Plan<DayBook, FirstCome>,
    rows: [SpanRow; 2],
    store: [SpanRow; 32],
    pub lent: usize,
}

fn numbered<T>(answer: Result<T, PlanRefusal>) -> Result<T, u8> {
    answer.map_err(|refused| refused.number())
}

fn window(lo: i32, hi: i32) -> Result<Span, u8> {
    Span::from_row(SpanRow { lo, hi }).ok_or(10)
}

fn lend<'a>(
    rows: &'a mut [SpanRow; 2],
    store: &'a mut [SpanRow; 32],
    lent: usize,
) -> Board<'a, Span> {
    let end = lent.min(2);
    Board {
        rows: &mut rows[0..end],
        store,
    }
}

impl Fixture {
    // A plan with no rule.
    pub fn new(mut rows: [SpanRow; 2]) -> Result<Fixture, u8> {
        let mut store = [SpanRow { lo: 0, hi: 0 }; 32];
        let board = lend(&mut rows, &mut store, 2);
        let (plan, refusal) = Plan::make(DayBook::new(), FirstCome::new(), &board);
        if let Some(refused) = refusal {
            return Err(refused.number());
        }
        Ok(Fixture {
            plan,
            rows,
            store,
            lent: 2,
        })
    }

    pub fn post(&mut self, rule: DayPost) -> Result<usize, u8> {
        let board = lend(&mut self.rows, &mut self.store, self.lent);
        numbered(self.plan.post(&board, rule))
    }

    pub fn cut(&mut self, j: usize, lo: i32, hi: i32) -> Result<Cutting, u8> {
        let window = window(lo, hi)?;
        let mut board = lend(&mut self.rows, &mut self.store, self.lent);
        numbered(self.plan.cut(&mut board, j, window))
    }

    pub fn try_cut(&mut self, j: usize, lo: i32, hi: i32) -> Result<Verdict, u8> {
        let window = window(lo, hi)?;
        let mut board = lend(&mut self.rows, &mut self.store, self.lent);
        numbered(try_cut(&mut self.plan, &mut board, j, window))
    }

    pub fn settle(&mut self) -> Result<Verdict, u8> {
        let mut board = lend(&mut self.rows, &mut self.store, self.lent);
        numbered(self.plan.settle(&mut board))
    }

    // The ends of a window.
    pub fn show(&mut self, j: usize) -> Result<(i32, i32), u8> {
        let board = lend(&mut self.rows, &mut self.store, self.lent);
        let row = numbered(self.plan.show(&board, j))?.row();
        Ok((row.lo, row.hi))
    }

    pub fn mark(&mut self) -> Result<Mark, u8> {
        let mut board = lend(&mut self.rows, &mut self.store, self.lent);
        numbered(self.plan.mark(&mut board))
    }

    pub fn keep(&mut self, mark: Mark) -> Result<Closing, u8> {
        let board = lend(&mut self.rows, &mut self.store, self.lent);
        numbered(self.plan.keep(&board, mark))
    }

    pub fn take_back(&mut self, mark: Mark) -> Result<Closing, u8> {
        let mut board = lend(&mut self.rows, &mut self.store, self.lent);
        numbered(self.plan.take_back(&mut board, mark))
    }
}
