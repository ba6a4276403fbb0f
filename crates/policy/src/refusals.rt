// The refusals of document 01's table, and their numbers and places.
ghost use Rattle.std.specs.Prelude.{◌≡◌, Some};
ghost use Rattle.policy.specs.Refusals.{number_of, place_of, refusal_text};

use std::fmt;

#[derive(Clone, Copy, Debug, PartialEq, Eq)]
pub enum Refusal {
    RoomLength,
    PolicyLength,
    PolicyText(usize),
    PolicyLayout,
    PolicyLimit,
    RoomContent,
    RecordLength,
    RecordText(usize),
    RecordLayout,
    NoAllow,
    ResultLength,
    OutputLength,
}

impl Refusal {
    pub fn number(self) -> u32
        ensures { result ≡ number_of self }
    {
        match self {
            Refusal::RoomLength => 1,
            Refusal::PolicyLength => 2,
            Refusal::PolicyText(_) => 3,
            Refusal::PolicyLayout => 4,
            Refusal::PolicyLimit => 5,
            Refusal::RoomContent => 6,
            Refusal::RecordLength => 7,
            Refusal::RecordText(_) => 8,
            Refusal::RecordLayout => 9,
            Refusal::NoAllow => 10,
            Refusal::ResultLength => 11,
            Refusal::OutputLength => 12,
        }
    }

    // Where the text breaks; 0 of a refusal that has no place.
    pub fn place(self) -> usize
        ensures { result ≡ place_of self }
    {
        match self {
            Refusal::PolicyText(p) | Refusal::RecordText(p) => p,
            _ => 0,
        }
    }
}

// The refusal as the program prints it.
impl fmt::Display for Refusal {
    ghost output = { λ r. Some (refusal_text r) };

    fn fmt<W: fmt::Write>(&self, f: &mut fmt::Formatter<W>) -> fmt::Result {
        let number = self.number();
        let place = self.place();
        write!(f, "refused {number} at {place}")
    }
}
