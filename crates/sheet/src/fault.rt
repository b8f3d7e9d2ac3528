// What a sheet is refused for, with the refusal of the layer below carried whole.
ghost use Rattle.std.specs.Prelude.{◌≡◌, Some};
ghost use Rattle.sheet.specs.Faults.{number_of, book_layer, plan_layer, layer_of, layer_name, fault_line};
ghost use Rattle.sheet.specs.declared.fault.Cause.TheVariants as cause;

use plan::PlanRefusal;
use records::SheetRefusal;
use rulebook::BookRefusal;
use std::fmt;

// The layer that a refusal belongs to.
#[derive(Clone, Copy, PartialEq, Debug)]
pub enum Layer {
    Sheet,
    Plan,
    Book,
}

// The refusal of the layer that refused, whole.
#[derive(Clone, Copy, PartialEq, Debug)]
pub enum Cause {
    Sheet(SheetRefusal),
    Plan(PlanRefusal),
    Book(BookRefusal),
}

impl From<SheetRefusal> for Cause {
    ghost from_gives = { λ f c. c ≡ cause.Sheet f };

    fn from(refusal: SheetRefusal) -> Cause {
        Cause::Sheet(refusal)
    }
}

impl From<PlanRefusal> for Cause {
    ghost from_gives = { λ f c. c ≡ cause.Plan f };

    fn from(refusal: PlanRefusal) -> Cause {
        Cause::Plan(refusal)
    }
}

impl From<BookRefusal> for Cause {
    ghost from_gives = { λ f c. c ≡ cause.Book f };

    fn from(refusal: BookRefusal) -> Cause {
        Cause::Book(refusal)
    }
}

// A refusal, and the first byte that was not taken.
#[derive(Clone, Copy, PartialEq, Debug)]
pub struct Fault {
    pub cause: Cause,
    pub at: usize,
}

// The layer's name.
impl fmt::Display for Layer {
    ghost output = { λ l. Some (layer_name l) };

    fn fmt<W: fmt::Write>(&self, f: &mut fmt::Formatter<W>) -> fmt::Result {
        f.write_str(match self {
            Layer::Sheet => "sheet",
            Layer::Plan => "plan",
            Layer::Book => "book",
        })
    }
}

fn layer_of_book(refusal: BookRefusal) -> Layer
    ensures { result ≡ book_layer refusal }
{
    match refusal {
        BookRefusal::Full => Layer::Plan,
        _ => Layer::Book,
    }
}

fn layer_of_plan(refusal: PlanRefusal) -> Layer
    ensures { result ≡ plan_layer refusal }
{
    match refusal {
        PlanRefusal::Window => Layer::Book,
        PlanRefusal::Book(f) => layer_of_book(f),
        _ => Layer::Plan,
    }
}

impl Fault {
    // The number of the innermost refusal.
    pub fn number(&self) -> u8
        ensures { result ≡ number_of self.now.cause }
    {
        match self.cause {
            Cause::Sheet(f) => f.number(),
            Cause::Plan(f) => f.number(),
            Cause::Book(f) => f.number(),
        }
    }

    // The layer that it belongs to.
    pub fn layer(&self) -> Layer
        ensures { result ≡ layer_of self.now.cause }
    {
        match self.cause {
            Cause::Sheet(_) => Layer::Sheet,
            Cause::Plan(f) => layer_of_plan(f),
            Cause::Book(f) => layer_of_book(f),
        }
    }
}

// The line that a refused sheet is answered by: number, layer and byte.
impl fmt::Display for Fault {
    ghost output = { λ f. Some (fault_line f) };

    fn fmt<W: fmt::Write>(&self, f: &mut fmt::Formatter<W>) -> fmt::Result {
        let number = self.number();
        let layer = self.layer();
        let at = self.at;
        write!(f, "refused {number} {layer} {at}")
    }
}
