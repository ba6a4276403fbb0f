// A statement: its members in any order.
ghost use Rattle.std.specs.Prelude.{◌+◌, ◌≤◌, length, IfSome};
ghost use Rattle.syntax.specs.PolicyLayout.{statement_of, condition_of};
ghost use Rattle.held.specs.Held.{held_list, held_row, held_statement};
ghost use Rattle.parts.specs.Room.{Roomy};
ghost use Rattle.parts.specs.Holding.{Laid};
ghost use Rattle.straight.specs.Taking.{Takes};
ghost use Rattle.objects.specs.Telling.{TellsTo, effect_named};
ghost use Rattle.objects.specs.Leaving.{Begins, States};
ghost use Rattle.objects.specs.Statements.{statements, Begun, WithSid, Slots, statement_from, Sorted, Sorting};

use crate::gathering::Layout;
use crate::leaving::Lost;
use crate::members::{Member, Part, Word};
use crate::{filling, gathering, members, settling};
use parts::entries::Entry;
use parts::holding::{Ended, Listed};
use straight::{entries, marks, rows};

// The effect that a word names.
fn effect_at(s: &[u8], v: usize) -> Option<Word>
    ensures { TellsTo effect_named s.now v result }
{
    if let Some(end) = marks::quote(s, v, b"Allow") {
        return Some(Word { number: 1, end });
    }
    let end = marks::quote(s, v, b"Deny")?;
    Some(Word { number: 2, end })
}

// A condition: its rows behind their number.
fn condition(s: &[u8], v: usize, run: &mut [u32], at: usize) -> Option<Ended>
    requires { Roomy run.old at 0 }
    ensures { Takes (held_list held_row) condition_of 3 s.now run.old run.new v at result }
{
    if run.len() <= at {
        return None;
    }
    let Listed { past, end, count } = rows::condition(s, v, run, at + 1)?;
    if rows::MOST < count {
        return None;
    }
    run[at] = count as u32;
    Some(Ended { past, end })
}

// The members of a statement.
struct StatementLayout;

impl Layout for StatementLayout {
    ghost kinded = { statements };

    // The member whose name stands at a place, told by the first letter.
    fn which(s: &[u8], i: usize) -> Option<Member> {
        if s.len() - i < 2 {
            return None;
        }
        match s[i + 1] {
            b'S' => members::is(1, marks::named(s, i, b"Sid")),
            b'A' => members::is(2, marks::named(s, i, b"Action")),
            b'R' => members::is(3, marks::named(s, i, b"Resource")),
            b'C' => members::is(4, marks::named(s, i, b"Condition")),
            b'E' => members::is(5, marks::named(s, i, b"Effect")),
            _ => None,
        }
    }

    // The value of a word.
    fn part(s: &[u8], v: usize, run: &mut [u32], at: usize, turn: usize) -> Option<Part> {
        if turn == 1 {
            return Some(Part::laid(entries::sid(s, v, run, at)?, at));
        }
        if turn == 2 {
            return Some(Part::laid(entries::entries(s, v, run, at, Entry::Action)?, at));
        }
        if turn == 3 {
            return Some(Part::laid(entries::entries(s, v, run, at, Entry::Resource)?, at));
        }
        if turn == 4 {
            return Some(Part::laid(condition(s, v, run, at)?, at));
        }
        Some(Part::told(effect_at(s, v)?, at))
    }
}

// From where on parts are held: the Sid's place, if it comes first; else that of a Sid of no characters lies before it.
fn begun(s: &[u8], i: usize, run: &mut [u32], at: usize) -> usize
    requires { at + 2 ≤ length run.old }
    ensures { Begun run.old run.new at result }
{
    if marks::named(s, i, b"Sid").is_some() {
        return at + 1;
    }
    run[at + 1] = 0;
    at + 2
}

// The Sid of no characters, if it is there and no other came.
fn with_sid(spans: [usize; 12], at: usize, base: usize) -> Option<[usize; 12]>
    requires { at + 2 ≤ 18446744073709551615 }
    ensures { IfSome result (WithSid spans at base) }
{
    if spans[3] != 0 {
        return Some(spans);
    }
    if base != at + 2 {
        return None;
    }
    let mut sid = spans;
    sid[2] = at + 1;
    sid[3] = at + 2;
    Some(sid)
}

// The parts put in the order of a statement: where it ends in the run, if none lacks that has to be there and there is
// room.
fn arranged(run: &mut [u32], spans: [usize; 12], at: usize) -> Option<usize>
    requires { Sorting run.old spans at }
    ensures { (x : Slots) → Sorted run.old spans at x → IfSome result (Laid held_statement run.old run.new at (statement_from x)) }
{
    if spans[3] == 0 || spans[5] == 0 || spans[7] == 0 || spans[11] == 0 {
        return None;
    }
    let all = filling::filled(run, spans, 4, &[0])?;
    let past = settling::settle(run, all, 4, at + 1)?;
    run[at] = spans[10] as u32;
    Some(past)
}

// The place of an object's first name.
fn first_name(s: &[u8], v: usize) -> Option<usize>
    ensures { IfSome result (Begins s.now v) }
{
    let i = marks::opened(s, v, b'{')?;
    if s.len() <= i || s[i] != b'"' {
        return None;
    }
    Some(i)
}

pub fn statement(s: &[u8], v: usize, run: &mut [u32], at: usize) -> Result<Ended, Lost>
    requires { Roomy run.old at 0 }
    ensures { States s.now run.old run.new v at result }
{
    if run.len() - at < 2 {
        return Err(Lost::Whole);
    }
    let Some(i) = first_name(s, v) else {
        return Err(Lost::Whole);
    };
    let base = begun(s, i, run, at);
    let spans = match gathering::gathered::<StatementLayout>(s, i, run, base) {
        Ok(spans) => spans,
        Err(c) => return Err(Lost::At(c)),
    };
    let Some(sid) = with_sid(spans, at, base) else {
        return Err(Lost::Whole);
    };
    let Some(past) = arranged(run, sid, at) else {
        return Err(Lost::Whole);
    };
    Ok(Ended {
        past,
        end: spans[0],
    })
}
