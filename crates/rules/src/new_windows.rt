// The new windows that a rule makes, and the one way in which they are written into the rows.
ghost use Rattle.std.specs.Prelude.{◌≡◌, ℕ, ◌==◌, ◌<◌, true, false, [], map, length, slice_set, Some, None, MatchOption};
ghost use Rattle.rulebook.specs.Tables.{differs};
ghost use Rattle.rulebook.specs.Answers.{member, Tells, RowsKept};
ghost use Rattle.bounded.specs.Lists.{items};
ghost use Rattle.rules.specs.Pointwise.{has_entry, distinct, replaced, written};
ghost use Rattle.rules.specs.Writing.{numbers_of, listed, near, pushed, lowest_emptied, OthersKept};

use bounded::BoundedList;
use rulebook::{Emptied, WindowSet, all_windows};
use windows::Window;

// A rule makes at most so many new windows.
const MOST: usize = 8;

// A new window for the place of window `at`; none where that would be emptied.
#[derive(Clone, Copy)]
pub struct NewWindow<W> {
    at: usize,
    new: Option<W>,
}

// What fills the unused places of a list; a derive would ask the same of `W`.
impl<W> Default for NewWindow<W> {
    fn default() -> NewWindow<W> {
        NewWindow { at: 0, new: None }
    }
}

impl<W> NewWindow<W> {
    // Is it for the place of window j?
    fn is_at(&self, j: usize) -> bool
        ensures { result ≡ (self.now.at == j) }
    {
        self.at == j
    }
}

// New windows, at most one for each window.
#[derive(Drop)]
pub struct NewWindows<W> {
    list: BoundedList<NewWindow<W>, MOST>,
    ghost close: { near (listed (λ _. []) (items list)) ≡ true },
    ghost apart: { distinct (listed (λ _. []) (items list)) ≡ true },
}

// Puts a window in the place of row `at`, unless it stands there already or there is no such row; says whether it did.
fn put<W: Window>(rows: &mut [W::Row], at: usize, new: &W) -> bool
    ensures table { map W.Window.stands rows.new ≡ slice_set (map W.Window.stands rows.old) at (W.Window.numbers new.now) }
    ensures differs { result ≡ differs (map W.Window.stands rows.old) (map W.Window.stands rows.new) at }
    ensures same { result ≡ false → rows.new ≡ rows.old }
    ensures others { OthersKept at rows.old rows.new }
{
    if at >= rows.len() {
        return false;
    }
    if let Some(old) = W::from_row(rows[at]) {
        if old.alike(new) {
            return false;
        }
    }
    rows[at] = new.row();
    true
}

impl<W: Window> NewWindows<W> {
    ghost use Rattle.rules.specs.Made.{made};

    // No new window yet.
    pub fn new() -> NewWindows<W>
        ensures { made W.Window.numbers result ≡ [] }
    {
        NewWindows {
            list: BoundedList::new(),
        }
    }

    // Is there a new window for number j?
    fn has(&self, j: usize) -> bool
        ensures { result ≡ has_entry (made W.Window.numbers self.now) j }
    {
        self.list.as_slice().iter().any(|entry| entry.is_at(j))
    }

    // Adds a new window at the end, unless the list is full, the number is past 63 or has a new window already.
    pub fn push(&mut self, at: usize, new: Option<W>)
        ensures { made W.Window.numbers self.new ≡ pushed (made W.Window.numbers self.old) (record { at = at; new = numbers_of W.Window.numbers new }) }
    {
        if at < 64 && !self.has(at) {
            let _ = self.list.push(NewWindow { at, new });
        }
    }

    // The lowest window below n that would be emptied.
    fn lowest_emptied(&self, n: usize) -> Option<usize>
        ensures { MatchOption result (lowest_emptied n (made W.Window.numbers self.now) ≡ n) (λ k. (k < n) × (lowest_emptied n (made W.Window.numbers self.now) ≡ k)) }
    {
        self.list
            .as_slice()
            .iter()
            .filter(|entry| entry.new.is_none() && entry.at < n)
            .map(|entry| entry.at)
            .min()
    }

    // Puts each new window in its place, and says which windows are others now.
    fn put_all(&self, rows: &mut [W::Row]) -> WindowSet
        requires { lowest_emptied (length rows.old) (made W.Window.numbers self.now) ≡ length rows.old }
        ensures table { map W.Window.stands rows.new ≡ replaced (map W.Window.stands rows.old) (made W.Window.numbers self.now) }
        ensures changed { (j : ℕ) → member result j ≡ differs (map W.Window.stands rows.old) (map W.Window.stands rows.new) j }
        ensures rows { RowsKept (Ok result) rows.old rows.new }
    {
        let mut changed = WindowSet::empty();
        for entry in self.list.as_slice() {
            if let Some(window) = entry.new {
                if put(rows, entry.at, &window) {
                    changed.add(entry.at);
                }
            }
        }
        changed
    }

    // Writes the new windows into the rows and answers which changed, or names the lowest window that would be emptied and
    // changes nothing; rows of which one is no window stay as they are.
    pub fn write(&self, rows: &mut [W::Row]) -> Result<WindowSet, Emptied>
        ensures equation { Tells (map W.Window.stands rows.old) (written (map W.Window.stands rows.old) (made W.Window.numbers self.now)) result (map W.Window.stands rows.new) }
        ensures rows { RowsKept result rows.old rows.new }
    {
        if !all_windows::<W>(rows) {
            return Ok(WindowSet::empty());
        }
        match self.lowest_emptied(rows.len()) {
            Some(window) => Err(Emptied { window }),
            None => Ok(self.put_all(rows)),
        }
    }
}
