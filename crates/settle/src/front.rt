// Settling the first rows of a slice.
ghost use Rattle.std.specs.Prelude.{◌≡◌, map, take, drop};
ghost use Rattle.plan.specs.Plans.{LendsOn};
ghost use Rattle.plan.specs.Views.{Untouched};
ghost use Rattle.settle.specs.Settled.{rows_ran, ran_to, given_to};
ghost use Rattle.settle.specs.Says.{SaysUnless};

use plan::{Board, Plan, PlanRefusal, Verdict};
use policies::FirstCome;
use rulebook::RuleBook;
use windows::Window;

// Makes a plan of these rules and the board's rows, copies the rows to the store's front, and settles the plan. A refused making
// changes nothing.
fn settle_board<B: RuleBook + Copy>(
    book: B,
    board: &mut Board<B::Kind>,
) -> Result<Verdict, PlanRefusal>
    ensures equation { rows_ran B.Kind.Window.stands (B.RuleBook.rules book) board.old.rows.now board.old.store.now ≡ ran_to B.Kind.Window.stands result board.new.rows.now }
    ensures rows { Untouched result board.old.rows.now board.new.rows.now }
    ensures store { board.new.store.now ≡ given_to result board.old.store.now board.old.rows.now }
    ensures lent { LendsOn board.old board.new }
{
    // a making answers its plan beside the refusal, so no `?`
    let (mut plan, refusal) = Plan::make(book, FirstCome::new(), board);
    if let Some(refused) = refusal {
        return Err(refused);
    }
    let n = board.rows.len();
    // both lent as `&mut`, so that the check follows both loans
    let rows = &mut *board.rows;
    let store = &mut *board.store;
    store[..n].copy_from_slice(rows);
    plan.settle(board)
}

// The same over rows and a store: a step of its own, so that what the two loans leave is known where they end.
fn settle_slices<B: RuleBook + Copy>(
    book: B,
    rows: &mut [<B::Kind as Window>::Row],
    store: &mut [<B::Kind as Window>::Row],
) -> Result<Verdict, PlanRefusal>
    ensures equation { rows_ran B.Kind.Window.stands (B.RuleBook.rules book) rows.old store.old ≡ ran_to B.Kind.Window.stands result rows.new }
    ensures rows { Untouched result rows.old rows.new }
    ensures store { store.new ≡ given_to result store.old rows.old }
{
    let mut board = Board::<B::Kind> { rows, store };
    settle_board(book, &mut board)
}

// Makes a plan of a book and the first n rows, and settles it first-come; the rows as they were given are then at the store's
// front. A refused making changes nothing. `n` stands beside the rows, since the call promises too that the rows behind them stay.
pub fn settle_front<B: RuleBook + Copy>(
    book: B,
    rows: &mut [<B::Kind as Window>::Row],
    n: usize,
    store: &mut [<B::Kind as Window>::Row],
) -> Result<Verdict, PlanRefusal>
    ensures equation { rows_ran B.Kind.Window.stands (B.RuleBook.rules book) (take n rows.old) store.old ≡ ran_to B.Kind.Window.stands result (take n rows.new) }
    ensures others { drop n rows.new ≡ drop n rows.old }
    ensures rows { Untouched result rows.old rows.new }
    ensures store { store.new ≡ given_to result store.old (take n rows.old) }
    ensures says { SaysUnless B.RuleBook.sets (B.RuleBook.rules book) (map B.Kind.Window.stands (take n rows.old)) result (map B.Kind.Window.stands (take n rows.new)) }
{
    let end = n.min(rows.len());
    settle_slices(book, &mut rows[..end], store)
}
