// Lines of any length from pieces of the input, in constant room.
ghost use Rattle.std.specs.Prelude.{◌≡◌, ◌≤◌, length, IfOk};
ghost use Rattle.refine.specs.Sound.{HeldSound};

use crate::feeding::Feeder;
use chars::lines::Line;
use std::io;
use std::io::Read;

// One byte more than a record may have is enough to refuse it.
const LINE: usize = 8193;

// The bytes of a line that is not ended yet, as far as they are kept.
#[derive(Drop)]
struct Partial {
    bytes: [u8; LINE],
    have: usize,
    ghost within: { have ≤ 8193 },
}

impl Partial {
    fn new() -> Partial {
        Partial {
            bytes: [0; LINE],
            have: 0,
        }
    }

    fn kept(&self) -> &[u8] {
        &self.bytes[..self.have]
    }

    // More of the line, as far as there is room.
    fn keep(&mut self, part: &[u8]) {
        let n = part.len().min(LINE - self.have);
        let end = self.have + n;
        self.bytes[self.have..end].copy_from_slice(&part[..n]);
        self.have = end;
    }
}

// What a log's lines are fed to, and the line that is not ended yet, with its number.
#[derive(Drop)]
pub struct Log<'a> {
    feeder: Feeder<'a>,
    line: Partial,
    number: u64,
}

impl<'a> Log<'a> {
    pub fn new(run: &'a [u32]) -> Log<'a>
        requires { HeldSound run.now }
        ensures { result.feeder.0 ≡ run.now }
    {
        Log {
            feeder: Feeder::new(run),
            line: Partial::new(),
            number: 1,
        }
    }

    // The last part of a line.
    fn end_line(&mut self, rt: &impl Print, part: &[u8]) -> io::Result<()>
        ensures { self.new.feeder.0 ≡ self.old.feeder.0 }
    {
        if self.line.have == 0 {
            self.feeder.feed(rt, part, self.number)?;
        } else {
            self.line.keep(part);
            self.feeder.feed(rt, self.line.kept(), self.number)?;
        }
        self.line.have = 0;
        self.number = self.number.saturating_add(1);
        Ok(())
    }

    // The lines of a piece of the input; the last is kept if it is not ended there.
    pub fn feed(&mut self, rt: &impl Print, piece: &[u8]) -> io::Result<()>
        ensures { self.new.feeder.0 ≡ self.old.feeder.0 }
    {
        let mut at = 0usize;
        loop {
            let Some(Line { end, next }) = chars::lines::line_at(piece, at) else {
                return Ok(());
            };
            if next == end {
                self.line.keep(&piece[at..end]);
                return Ok(());
            }
            self.end_line(rt, &piece[at..end])?;
            at = next;
        }
    }

    // The last line, if the input does not end it, and then the result.
    pub fn finish(&mut self, rt: &impl Print) -> io::Result<()>
        ensures { self.new.feeder.0 ≡ self.old.feeder.0 }
    {
        self.feeder.feed(rt, self.line.kept(), self.number)?;
        self.feeder.finish(rt)
    }
}

// Reads until the run is full or the input ends, and tells how many bytes it has of it.
pub fn read_full(input: &mut impl Read, out: &mut [u8]) -> io::Result<usize>
    ensures { IfOk result (λ n. n ≤ length out.new) }
{
    let mut n = 0;
    while n < out.len() {
        let got = input.read(&mut out[n..])?;
        if got == 0 {
            return Ok(n);
        }
        n += got;
    }
    Ok(n)
}
