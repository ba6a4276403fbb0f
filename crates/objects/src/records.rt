// A record: its members in any order.
ghost use Rattle.std.specs.Prelude.{◌≤◌, length, IfSome};
ghost use Rattle.syntax.specs.Limits.{run_numbers};
ghost use Rattle.syntax.specs.RecordLayout.{only_one, action_name_of, resource_arn_of, request_of};
ghost use Rattle.held.specs.Held.{held_text, held_request};
ghost use Rattle.parts.specs.Room.{Roomy};
ghost use Rattle.parts.specs.Holding.{Laid};
ghost use Rattle.straight.specs.Taking.{Takes};
ghost use Rattle.objects.specs.Telling.{TakesText};
ghost use Rattle.objects.specs.Records.{records, Slots, request_from, Sorted, Sorting};

use crate::gathering::Layout;
use crate::members::{Member, Part};
use crate::{contexts, filling, gathering, members, settling};
use parts::holding::Ended;
use straight::{forms, marks, strings};
use text::scan;

fn action(s: &[u8], v: usize, run: &mut [u32], at: usize) -> Option<Ended>
    requires { Roomy run.old at 0 }
    ensures { Takes held_text (only_one action_name_of) 1 s.now run.old run.new v at result }
{
    let h = strings::sole(s, v, run, at)?;
    let first = at + 1;
    if !forms::is_action_name(&run[first..h.past]) {
        return None;
    }
    Some(h)
}

fn resource(s: &[u8], v: usize, run: &mut [u32], at: usize) -> Option<Ended>
    requires { Roomy run.old at 0 }
    ensures { Takes held_text (only_one resource_arn_of) 1 s.now run.old run.new v at result }
{
    let h = strings::sole(s, v, run, at)?;
    let first = at + 1;
    if !forms::is_resource_arn(&run[first..h.past]) {
        return None;
    }
    Some(h)
}

// The members of a record.
struct RecordLayout;

impl Layout for RecordLayout {
    ghost kinded = { records };

    // The member whose name stands at a place, told by the first letter.
    fn which(s: &[u8], i: usize) -> Option<Member> {
        if s.len() - i < 2 {
            return None;
        }
        match s[i + 1] {
            b'A' => members::is(1, marks::named(s, i, b"ActionNames")),
            b'R' => members::is(2, marks::named(s, i, b"ResourceArns")),
            b'C' => members::is(3, marks::named(s, i, b"ContextEntries")),
            _ => None,
        }
    }

    // The value of a word.
    fn part(s: &[u8], v: usize, run: &mut [u32], at: usize, turn: usize) -> Option<Part> {
        if turn == 1 {
            return Some(Part::laid(action(s, v, run, at)?, at));
        }
        if turn == 2 {
            return Some(Part::laid(resource(s, v, run, at)?, at));
        }
        Some(Part::laid(contexts::contexts(s, v, run, at)?, at))
    }
}

// The parts put in the order of a request: where it ends in the run, if it has an action and there is room.
fn arranged(run: &mut [u32], spans: [usize; 12]) -> Option<usize>
    requires { Sorting run.old spans }
    ensures { (x : Slots) → Sorted run.old spans x → IfSome result (Laid held_request run.old run.new 0 (request_from x)) }
{
    if spans[3] == 0 {
        return None;
    }
    let some = filling::filled(run, spans, 2, &[1, b'*' as u32])?;
    let all = filling::filled(run, some, 3, &[0])?;
    settling::settle(run, all, 3, 0)
}

// The request that an object is.
fn request(s: &[u8], v: usize, run: &mut [u32]) -> Option<Ended>
    requires { length run.old ≤ run_numbers }
    ensures { Takes held_request request_of 4 s.now run.old run.new v 0 result }
{
    let i = marks::opened(s, v, b'{')?;
    let Ok(spans) = gathering::gathered::<RecordLayout>(s, i, run, 0) else {
        return None;
    };
    let past = arranged(run, spans)?;
    Some(Ended {
        past,
        end: spans[0],
    })
}

// The record that a text is: the place behind it.
pub fn record(s: &[u8], run: &mut [u32]) -> Option<usize>
    requires { length run.old ≤ run_numbers }
    ensures { TakesText held_request request_of s.now run.old run.new result }
{
    let v = scan::space(s, 0);
    let Ended { past, end } = request(s, v, run)?;
    if scan::space(s, end) < s.len() {
        return None;
    }
    Some(past)
}
