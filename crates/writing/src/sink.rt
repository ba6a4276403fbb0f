// A room that takes what is written as far as it goes, and knows whether it was too much.
ghost use Rattle.std.specs.Prelude.{◌≡◌, true, [], ◌∷◌, ◌≤◌};
ghost use Rattle.chars.specs.Written.{written};
ghost use Rattle.writing.specs.Showing.{Shows, Adds, Ends, Gives};
ghost use Rattle.writing.specs.Plain.{AddsPlain};
ghost use Rattle.writing.specs.Bytes.{between};

use crate::plain;

// What was written ends at a place. Once something did not fit, that is the room's end, and it is over.
#[derive(Drop)]
pub struct Sink<'a> {
    room: &'a mut [u8],
    at: usize,
    over: bool,
}

// Is it written as itself? Without branches, as nearly every character is.
fn is_bare(c: u32) -> bool
    ensures { result ≡ true → (c ≤ 126) × (written c ≡ c ∷ []) }
{
    (31 < c) & (c < 127) & (c != plain::QUOTE) & (c != plain::SOLIDUS)
}

impl<'a> Sink<'a> {
    pub fn new(room: &'a mut [u8]) -> Sink<'a>
        ensures { (result.room.ghost_name ≡ room.entry.ghost_name) × (result.room.now ≡ room.old) × (Shows [] result) }
    {
        Sink {
            room,
            at: 0,
            over: false,
        }
    }

    // What was written, if it was not too much.
    pub fn written(&self) -> Option<&[u8]>
        ensures { Gives self.now result }
    {
        if self.over || self.room.len() < self.at {
            return None;
        }
        Some(&self.room[..self.at])
    }

    // Was it too much?
    pub(crate) fn is_over(&self) -> bool
        ensures { result ≡ self.now.over }
    {
        self.over
    }

    // Something does not fit.
    fn end(&mut self)
        ensures { Ends self.old self.new }
    {
        self.at = self.room.len();
        self.over = true;
    }

    pub fn put(&mut self, b: u8)
        ensures { Adds (b ∷ []) self.old self.new }
    {
        if self.room.len() <= self.at {
            self.over = true;
            return;
        }
        self.room[self.at] = b;
        self.at += 1;
    }

    // Whether they fit is tested once, for all.
    pub fn put_bytes(&mut self, bs: &[u8])
        ensures { Adds bs.now self.old self.new }
    {
        if self.room.len() < bs.len() || self.room.len() - bs.len() < self.at {
            self.end();
            return;
        }
        let next = self.at + bs.len();
        self.room[self.at..next].copy_from_slice(bs);
        self.at = next;
    }

    // A character in its written form.
    pub fn put_char(&mut self, c: u32)
        ensures { Adds (written c) self.old self.new }
    {
        if is_bare(c) {
            self.put(c as u8);
            return;
        }
        match chars::written::put_char(self.room, self.at, c) {
            Some(next) => self.at = next,
            None => self.end(),
        }
    }

    // The first characters, as far as they are plain and the room goes: how many.
    pub fn put_plain(&mut self, ys: &[u32]) -> usize
        ensures { AddsPlain ys.now result self.old self.new }
    {
        if self.room.len() < self.at {
            return 0;
        }
        let n = plain::put_plain(&mut self.room[self.at..], ys);
        self.at += n;
        n
    }

    // A comma, but not before the first thing.
    pub fn put_between(&mut self, i: usize)
        ensures { Adds (between i) self.old self.new }
    {
        if i != 0 {
            self.put(b',');
        }
    }
}
