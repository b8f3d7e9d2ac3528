// What is lent to each call on a sheet besides its bytes.
use books::DayBook;
use windows::SpanRow;

#[derive(Drop)]
pub struct Lent<'a> {
    // the rules that were read
    pub book: &'a mut DayBook,
    // places for 64 windows
    pub rows: &'a mut [SpanRow],
    // 1,024 places: the windows as the sheet gave them, once it is settled
    pub store: &'a mut [SpanRow],
}
