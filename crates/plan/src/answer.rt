// What the calls of a plan answer.
ghost use Rattle.std.specs.Prelude.{◌≡◌};
ghost use Rattle.plan.specs.Numbers.{plan_number};
ghost use Rattle.plan.specs.Settling.{is_impossible};
ghost use Rattle.plan.specs.declared.answer.PlanRefusal.TheVariants.{Book};

use rulebook::BookRefusal;

// What a settling answers: its steps, and where it failed the rule and the window.
#[derive(Clone, Copy, PartialEq, Debug)]
pub enum Verdict {
    Settled {
        steps: u64,
    },
    Impossible {
        steps: u64,
        rule: usize,
        window: usize,
    },
}

impl Verdict {
    // Is the plan impossible after it?
    pub fn is_impossible(&self) -> bool
        ensures { result ≡ is_impossible self.now }
    {
        matches!(self, Verdict::Impossible { .. })
    }
}

// What a cut did to its window.
#[derive(Clone, Copy, PartialEq, Debug)]
pub enum Cutting {
    Changed,
    Unchanged,
    Impossible,
}

// What ending a mark answers: one case, which is stated by its name.
#[derive(Clone, Copy, PartialEq, Debug)]
pub enum Closing {
    Done,
}

// Why a call of a plan is refused.
#[derive(Clone, Copy, PartialEq, Debug)]
pub enum PlanRefusal {
    // the board has not 1 to 64 windows, or a row is none
    Windows,
    // the store is not 16 times as long as the table
    Store,
    // the table is not as long as the plan's, or the book reads beyond it
    Length,
    // a window number is not in the table
    Window,
    // 16 marks are open
    Marks,
    // all marks are handed out
    Handed,
    // the mark is no longer open
    Ended,
    // the plan is impossible
    Impossible,
    // the book refused the rule
    Book(BookRefusal),
}

impl From<BookRefusal> for PlanRefusal {
    ghost from_gives = { λ f e. e ≡ Book f };

    fn from(refused: BookRefusal) -> PlanRefusal {
        PlanRefusal::Book(refused)
    }
}

impl PlanRefusal {
    // The number that the refusal is told by. It is a match, and no discriminant: one variant holds a book's refusal.
    pub fn number(&self) -> u8
        ensures { result ≡ plan_number self.now }
    {
        match self {
            PlanRefusal::Windows => 1,
            PlanRefusal::Store => 2,
            PlanRefusal::Length => 3,
            PlanRefusal::Window => 6,
            PlanRefusal::Marks => 11,
            PlanRefusal::Handed => 12,
            PlanRefusal::Ended => 13,
            PlanRefusal::Impossible => 14,
            PlanRefusal::Book(refusal) => refusal.number(),
        }
    }
}
