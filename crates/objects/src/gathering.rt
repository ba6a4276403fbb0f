// The members of an object, whatever its layout: each is held where the walk comes to it.
ghost use Rattle.std.specs.Prelude.{◌≤◌, length};
ghost use Rattle.parts.specs.Room.{Roomy};
ghost use Rattle.parts.specs.Slots.{Turn};
ghost use Rattle.objects.specs.Gathering.{Kinded, Names, Parts, Proper};
ghost use Rattle.objects.specs.Leaving.{Gathers};

use crate::members::{Member, Part};
use straight::marks;

// The names of an object's members, and how the value of each is held.
pub trait Layout {
    ghost kinded: { Kinded };

    // The member whose name stands at a place.
    fn which(s: &[u8], i: usize) -> Option<Member>
        requires { i ≤ length s.now }
        ensures { Names kinded.words s.now i result };

    // The value of a word.
    fn part(s: &[u8], v: usize, run: &mut [u32], at: usize, turn: usize) -> Option<Part>
        requires { (Roomy run.old at 0) × (Turn kinded.words turn) }
        ensures { Parts kinded s.now run.old run.new v at turn result };
}

// The members from the first name on; or the place of the name at which they are given up.
pub fn gathered<L: Layout>(
    s: &[u8],
    first: usize,
    run: &mut [u32],
    at: usize,
) -> Result<[usize; 12], usize>
    requires { (Proper L.kinded) × ((first ≤ length s.now) × (Roomy run.old at 0)) }
    ensures { Gathers L.kinded s.now run.old run.new first at result }
{
    let mut spans = [0usize; 12];
    let mut i = first;
    let mut p = at;
    loop {
        let Some(Member { turn, value }) = L::which(s, i) else {
            return Err(i);
        };
        if spans[turn + turn + 1] != 0 {
            return Err(i);
        }
        let Some(
            Part {
                from,
                to,
                past,
                end,
            },
        ) = L::part(s, value, run, p, turn)
        else {
            return Err(i);
        };
        spans[turn + turn] = from;
        spans[turn + turn + 1] = to;
        p = past;
        let Some(next) = marks::parted(s, end, b',') else {
            let Some(past) = marks::closed(s, end, b'}') else {
                return Err(i);
            };
            spans[0] = past;
            spans[1] = p;
            return Ok(spans);
        };
        i = next;
    }
}
