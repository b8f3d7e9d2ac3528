// What only the sheet refuses. It is like `BookRefusal` in shape alone: each layer has refusals and numbers of its own.
ghost use Rattle.std.specs.Prelude.{◌≡◌};
ghost use Rattle.records.specs.Records.{sheet_number};

#[derive(Clone, Copy, PartialEq, Debug)]
pub enum SheetRefusal {
    // more than 61,440 bytes
    Long = 20,
    // fewer than four head bytes are left
    Head = 21,
    // the payload is cut off
    Payload = 22,
    // no such kind of record
    Unknown = 23,
    // a record out of its place, or foreign to the sheet's kind
    Place = 24,
    // a payload of the wrong length
    Length = 25,
    // not all bytes were taken
    Left = 26,
    // the listing does not fit
    Room = 27,
}

impl SheetRefusal {
    // The number that the refusal is told by.
    pub fn number(&self) -> u8
        ensures { result ≡ sheet_number self.now }
    {
        *self as u8
    }
}
