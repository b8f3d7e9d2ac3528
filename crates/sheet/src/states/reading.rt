// Opening, reading and finishing a sheet.
ghost use Rattle.std.specs.Prelude.{◌≡◌, ◌<◌, length, OnErr};
ghost use Rattle.sheet.specs.Reading.{LendsOn, held, opened, view, added, took, outcome, reading, readings, quiet, finished, whole};
ghost use Rattle.sheet.specs.declared.item.Item.TheVariants as item;

use super::{Open, Read, check_room};
use crate::fault::{Cause, Fault};
use crate::item::{Item, item_of};
use crate::lent::Lent;
use books::DayPost;
use plan::PlanRefusal;
use records::{SheetRefusal, Stage, record_at};
use rulebook::{BookRefusal, RuleBook};
use windows::{Span, SpanRow, Window};

// A record has four bytes at least, so this many readings reach the end of any sheet.
const MOST_READINGS: usize = 15_361;

impl Open {
    // Opens a sheet, and empties its book.
    pub fn open(bytes: &[u8], lent: &mut Lent) -> Result<Open, Fault>
        ensures equation { opened bytes.now (held lent.old) ≡ record { answer = result; after = held lent.new } }
        ensures lent { LendsOn lent.old lent.new }
    {
        if bytes.len() > 61_440 {
            return Err(Fault {
                cause: SheetRefusal::Long.into(),
                at: 0,
            });
        }
        check_room(lent).map_err(|refusal| Fault {
            cause: refusal.into(),
            at: 0,
        })?;
        lent.book.shorten(0);
        Ok(Open {
            at: 0,
            stage: Stage::Blank,
            windows: 0,
        })
    }

    // The sheet's kind: 1 is for spans. Any other byte is out of place here, so there is no type of kinds to make of it.
    fn add_kind(&mut self, kind: u8, lent: &mut Lent) -> Result<(), Cause>
        ensures value { added (view self.old lent.old) (item.Kind kind) ≡ outcome result (view self.new lent.new) }
        ensures kept { OnErr result (view self.new lent.new ≡ view self.old lent.old) }
        ensures lent { LendsOn lent.old lent.new }
    {
        if kind != 1 {
            return Err(SheetRefusal::Place.into());
        }
        self.stage = Stage::Windows;
        Ok(())
    }

    // A window more.
    fn add_window(&mut self, row: SpanRow, lent: &mut Lent) -> Result<(), Cause>
        requires { self.old.windows < length lent.old.rows.now }
        ensures value { added (view self.old lent.old) (item.Window row) ≡ outcome result (view self.new lent.new) }
        ensures kept { OnErr result (view self.new lent.new ≡ view self.old lent.old) }
        ensures lent { LendsOn lent.old lent.new }
    {
        let Some(_window) = Span::from_row(row) else {
            return Err(BookRefusal::Row.into());
        };
        lent.rows[self.windows] = row;
        self.windows += 1;
        Ok(())
    }

    // A rule for the windows so far.
    fn add_rule(&mut self, rule: DayPost, lent: &mut Lent) -> Result<(), Cause>
        ensures value { added (view self.old lent.old) (item.Rule rule) ≡ outcome result (view self.new lent.new) }
        ensures kept { OnErr result (view self.new lent.new ≡ view self.old lent.old) }
        ensures lent { LendsOn lent.old lent.new }
    {
        lent.book.post(rule, self.windows)?;
        self.stage = Stage::Rules;
        Ok(())
    }

    // What an item adds, where there is room for it.
    fn take(&mut self, item: Item, lent: &mut Lent) -> Result<(), Cause>
        ensures value { took (view self.old lent.old) item ≡ outcome result (view self.new lent.new) }
        ensures kept { OnErr result (view self.new lent.new ≡ view self.old lent.old) }
        ensures lent { LendsOn lent.old lent.new }
    {
        if matches!(item, Item::Window(_)) && self.windows >= 64 {
            return Err(PlanRefusal::Windows.into());
        }
        check_room(lent)?;
        match item {
            Item::Kind(kind) => self.add_kind(kind, lent),
            Item::Window(row) => self.add_window(row, lent),
            Item::Rule(rule) => self.add_rule(rule, lent),
            Item::Note => Ok(()),
        }
    }

    // Takes one record and answers its kind, or none where no byte is left. A refused reading takes nothing.
    pub fn read(&mut self, bytes: &[u8], lent: &mut Lent) -> Result<Option<u16>, Fault>
        ensures equation { reading bytes.now (view self.old lent.old) ≡ record { answer = result; after = view self.new lent.new } }
        ensures lent { LendsOn lent.old lent.new }
    {
        let at = self.at;
        let found = record_at(bytes, at, self.stage).map_err(|refusal| Fault {
            cause: refusal.into(),
            at,
        })?;
        let Some(placed) = found else {
            return Ok(None);
        };
        let item = item_of(placed.record).ok_or(Fault {
            cause: SheetRefusal::Length.into(),
            at,
        })?;
        self.take(item, lent).map_err(|cause| Fault { cause, at })?;
        self.at = placed.next;
        Ok(Some(placed.kind))
    }

    // Reads record after record, to the end or to the first refusal.
    pub fn read_all(&mut self, bytes: &[u8], lent: &mut Lent) -> Result<(), Fault>
        ensures answer { result ≡ quiet (readings 15361 bytes.now (view self.old lent.old)).answer }
        ensures after { view self.new lent.new ≡ (readings 15361 bytes.now (view self.old lent.old)).after }
        ensures lent { LendsOn lent.old lent.new }
    {
        // counted, so that the loop ends by the check
        for turn in 0..MOST_READINGS {
            if self.read(bytes, lent)?.is_none() {
                return Ok(());
            }
        }
        Ok(())
    }

    // Makes an open sheet a read one, or hands it back with the fault.
    pub fn finish(self, bytes: &[u8]) -> Result<Read, (Open, Fault)>
        ensures { result ≡ finished (length bytes.now) self }
    {
        let at = self.at;
        if at < bytes.len() {
            let cause = SheetRefusal::Left.into();
            return Err((self, Fault { cause, at }));
        }
        if self.windows == 0 {
            let cause = PlanRefusal::Windows.into();
            return Err((self, Fault { cause, at }));
        }
        let Open {
            at,
            stage: _,
            windows,
        } = self;
        Ok(Read { at, windows })
    }
}

impl Read {
    // Opens, reads and finishes a sheet.
    pub fn whole(bytes: &[u8], lent: &mut Lent) -> Result<Read, Fault>
        ensures equation { whole bytes.now (held lent.old) ≡ record { answer = result; after = held lent.new } }
        ensures lent { LendsOn lent.old lent.new }
    {
        let mut open = Open::open(bytes, lent)?;
        open.read_all(bytes, lent)?;
        open.finish(bytes).map_err(|(_open, fault)| fault)
    }
}
