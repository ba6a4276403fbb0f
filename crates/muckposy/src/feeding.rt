// Records under a policy, and what is printed of them: a line is printed by one write.
ghost use Rattle.std.specs.Prelude.{◌≡◌, List, ℕ, ◌<◌, length};
ghost use Rattle.refine.specs.Sound.{HeldSound, Kept};

use std::io;
use std::marker::Model;

const RESULT: usize = 6144;

// A policy that is held, the room of what is fed, which stays the policy's, and a run for requests.
#[derive(Drop)]
pub struct Feeder<'a> {
    run: &'a [u32],
    request: [u32; 8448],
    room: [u32; 16384],
}

impl<'a> Model for Feeder<'a> {
    ghost Value = { List ℕ × List ℕ };

    ghost view = { λ f. (f.run.now, f.room) };

    ghost invariant = { λ f. Kept f.run.now f.request f.room };
}

impl<'a> Feeder<'a> {
    pub fn new(run: &'a [u32]) -> Feeder<'a>
        requires { HeldSound run.now }
        ensures { result.0 ≡ run.now }
    {
        Feeder {
            run,
            request: [0; 8448],
            room: [0; 16384],
        }
    }

    // A record, by its line's number: a refusal is printed. An empty line is none.
    pub fn feed(&mut self, rt: &impl Print, line: &[u8], number: u64) -> io::Result<()>
        ensures { self.new.0 ≡ self.old.0 }
    {
        if line.is_empty() {
            return Ok(());
        }
        match refine::operations::feed_record(self.run, line, &mut self.request, &mut self.room) {
            Ok(_) => Ok(()),
            Err(refusal) => println!(rt; "line {number} {refusal}"),
        }
    }

    // The result; or why there is none.
    pub fn finish(&self, rt: &impl Print) -> io::Result<()> {
        let mut line = [0u8; RESULT + 1];
        match refine::operations::finish_held(self.run, &self.room, &mut line[..RESULT]) {
            Ok(n) => say_line(rt, &mut line, n),
            Err(refusal) => println!(rt; "{refusal}"),
        }
    }
}

// The first n bytes, and the end of the line behind them.
fn say_line(rt: &impl Print, line: &mut [u8], n: usize) -> io::Result<()>
    requires { n < length line.old }
{
    line[n] = b'\n';
    rt.write_all(&line[..=n])
}
