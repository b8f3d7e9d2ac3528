// What a plan keeps beside its book and its policy.
ghost use Rattle.std.specs.Prelude.{◌≡◌, [], length, false};
ghost use Rattle.plan.specs.Views.{found};

use bounded::BoundedList;

// An open mark: its number, and the rule count and the impossible flag at its making.
#[derive(Clone, Copy, Default)]
pub struct Slot {
    pub number: u32,
    pub count: usize,
    pub impossible: bool,
}

// The plan's count of windows, its impossible flag, the marks handed out, and the open marks, the oldest first.
#[derive(Clone, Copy)]
pub struct Status {
    pub windows: usize,
    pub impossible: bool,
    pub handed: u32,
    pub marks: BoundedList<Slot, 16>,
}

impl Status {
    ghost use Rattle.bounded.specs.Lists.{items};

    // A possible plan for so many windows, with no mark.
    pub fn new(windows: usize) -> Self
        ensures windows { result.windows ≡ windows }
        ensures possible { result.impossible ≡ false }
        ensures handed { result.handed ≡ 0 }
        ensures marks { items result.marks ≡ [] }
    {
        Status {
            windows,
            impossible: false,
            handed: 0,
            marks: BoundedList::new(),
        }
    }

    // The place of the newest open mark with this number.
    pub fn find(&self, number: u32) -> Option<usize>
        ensures { let marks = items self.now.marks in result ≡ found marks number (length marks) }
    {
        self.marks
            .as_slice()
            .iter()
            .rposition(|slot| slot.number == number)
    }
}
