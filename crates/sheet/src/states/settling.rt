// Settling and printing a sheet that was read.
ghost use Rattle.std.specs.Prelude.{◌≡◌};
ghost use Rattle.books.specs.DayBooks.{day_rules};
ghost use Rattle.plan.specs.Views.{Untouched};
ghost use Rattle.sheet.specs.Reading.{LendsOn, held};
ghost use Rattle.sheet.specs.Settled.{settled, left, printed_sheet};

use super::{Read, check_room};
use crate::fault::Fault;
use crate::lent::Lent;
use listing::print_listing;
use plan::Verdict;
use records::SheetRefusal;
use settle::settle_front;

impl Read {
    // Settles the sheet's windows by its rules; the windows as the sheet gave them are then at the store's front.
    pub fn settle(&self, lent: &mut Lent) -> Result<Verdict, Fault>
        ensures equation { settled self.now (held lent.old) ≡ left self.now result (day_rules lent.new.book.now) lent.new.rows.now lent.new.store.now }
        ensures rows { Untouched result lent.old.rows.now lent.new.rows.now }
        ensures lent { LendsOn lent.old lent.new }
    {
        let at = self.at;
        check_room(lent).map_err(|refusal| Fault {
            cause: refusal.into(),
            at,
        })?;
        settle_front(*lent.book, lent.rows, self.windows, lent.store).map_err(|refused| Fault {
            cause: refused.into(),
            at,
        })
    }

    // Prints the listing of a settled sheet into `out` and answers its length.
    pub fn print(&self, verdict: Verdict, lent: &Lent, out: &mut [u8]) -> Result<usize, Fault>
        ensures { printed_sheet self.now (held lent.now) verdict out.old ≡ record { answer = result; after = out.new } }
    {
        let at = self.at;
        check_room(lent).map_err(|refusal| Fault {
            cause: refusal.into(),
            at,
        })?;
        let end = self.windows.min(lent.rows.len());
        print_listing(verdict, &lent.rows[..end], lent.store, out).ok_or(Fault {
            cause: SheetRefusal::Room.into(),
            at,
        })
    }
}
