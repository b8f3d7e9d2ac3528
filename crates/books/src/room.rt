// The room book, and its rules, each one checked.
ghost use Rattle.books.specs.Room.{room_rule, room_meaning, room_asks};
ghost use Rattle.books.specs.RoomLaws.{room_lawful, room_near, room_within};

use crate::post::RoomPost;
use pairs::Pair;
use rulebook::{BookRefusal, Emptied, WindowSet};
use rules::{Book, BookRule};
use sets::{Set, SetRow};
use steps::Step;

// A rule over sets that has passed its questions.
#[derive(Clone, Copy)]
pub enum RoomRule {
    Differ(Pair),
    Same(Pair),
    Step(Step),
}

// The rulebook over sets: differ, same and step.
pub type RoomBook = Book<RoomRule>;

impl BookRule for RoomRule {
    type Kind = Set;

    type Post = RoomPost;

    ghost rule = { room_rule };

    ghost meaning = { room_meaning };

    ghost asks = { room_asks };

    ghost lawful = { room_lawful };

    ghost near = { room_near };

    ghost within = { room_within };

    fn check(post: RoomPost, n: usize) -> Result<RoomRule, BookRefusal> {
        match post {
            RoomPost::Differ(p, q) => Ok(RoomRule::Differ(Pair::check(p, q, n)?)),
            RoomPost::Same(p, q) => Ok(RoomRule::Same(Pair::check(p, q, n)?)),
            RoomPost::Step(p, q, k) => Ok(RoomRule::Step(Step::check(p, q, k, n)?)),
        }
    }

    fn reads(&self, j: usize) -> bool {
        match *self {
            RoomRule::Differ(pair) => pair.reads(j),
            RoomRule::Same(pair) => pair.reads(j),
            RoomRule::Step(step) => step.reads(j),
        }
    }

    fn narrow(&self, rows: &mut [SetRow]) -> Result<WindowSet, Emptied> {
        match *self {
            RoomRule::Differ(pair) => pair.differ::<Set>(rows).write(rows),
            RoomRule::Same(pair) => pair.same::<Set>(rows).write(rows),
            RoomRule::Step(step) => step.narrow(rows),
        }
    }
}
