// The members of an object, one by one: which name stands at a place, and what its value was held as.
ghost use Rattle.std.specs.Prelude.{◌≡◌};
ghost use Rattle.objects.specs.Gathering.{is_named, laid_as, told_as};

use parts::holding::Ended;

// A member whose name is a word of its layout: the word's turn, and where its value stands.
#[derive(Clone, Copy)]
pub struct Member {
    pub turn: usize,
    pub value: usize,
}

// A word that stands as a value: the number that tells it, and where it ends in the text.
#[derive(Clone, Copy)]
pub struct Word {
    pub number: u32,
    pub end: usize,
}

// A value that was held: from which place of the run up to which, or the number that tells it and 1; from where on the
// next may lie, and where it ends in the text.
#[derive(Clone, Copy)]
pub struct Part {
    pub from: usize,
    pub to: usize,
    pub past: usize,
    pub end: usize,
}

impl Part {
    // A value that lies in the run from a place on.
    pub fn laid(h: Ended, at: usize) -> Part
        ensures { result ≡ laid_as h at }
    {
        Part {
            from: at,
            to: h.past,
            past: h.past,
            end: h.end,
        }
    }

    // A value that a number tells.
    pub fn told(w: Word, at: usize) -> Part
        ensures { result ≡ told_as w at }
    {
        Part {
            from: w.number as usize,
            to: 1,
            past: at,
            end: w.end,
        }
    }
}

// The word of a turn, if its name stands before a value's place.
pub fn is(turn: usize, value: Option<usize>) -> Option<Member>
    ensures { result ≡ is_named turn value }
{
    Some(Member {
        turn,
        value: value?,
    })
}
