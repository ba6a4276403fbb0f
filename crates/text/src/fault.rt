// Why bytes are no text of the levels allowed.

#[derive(Clone, Copy, PartialEq, Eq)]
pub enum Fault {
    // They break at this place: no JSON text goes on so.
    Breaks(usize),
    // A level too many is opened.
    Deep,
}
