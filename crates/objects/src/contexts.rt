// The context entries of a record: their members in any order.
ghost use Rattle.std.specs.Prelude.{◌≡◌, IfSome};
ghost use Rattle.straight.specs.Marks.{Unless};
ghost use Rattle.text.specs.Json.{list, no_more, a_value, Reads};
ghost use Rattle.syntax.specs.Members.{then, differing};
ghost use Rattle.syntax.specs.RecordLayout.{key_name_of, context_of, same_context, contexts_of};
ghost use Rattle.held.specs.Held.{held_text, held_list, held_context};
ghost use Rattle.parts.specs.Room.{Roomy};
ghost use Rattle.parts.specs.Holding.{Laid};
ghost use Rattle.straight.specs.Taking.{Takes, TakesSeveral};
ghost use Rattle.objects.specs.Telling.{TellsTo, type_told, each_in};
ghost use Rattle.objects.specs.Contexts.{contexts, Slots, context_from, Sorted, Sorting, type_from, Texting, Values};

use crate::gathering::Layout;
use crate::members::{Member, Part, Word};
use crate::{gathering, members, settling};
use held::limits;
use parts::holding;
use parts::holding::{Ended, Listed};
use parts::words::ValueType;
use straight::{forms, keys, marks, strings};
use syntax::numbers;

// A key name.
fn key_name(s: &[u8], v: usize, run: &mut [u32], at: usize) -> Option<Ended>
    requires { Roomy run.old at 0 }
    ensures { Takes held_text key_name_of 0 s.now run.old run.new v at result }
{
    let h = strings::string(s, v, run, at)?;
    let first = at + 1;
    if !forms::is_key_name(&run[first..h.past]) {
        return None;
    }
    Some(h)
}

// The type that a word names.
fn type_at(s: &[u8], v: usize) -> Option<Word>
    ensures { TellsTo type_told s.now v result }
{
    if let Some(end) = marks::quote(s, v, b"string") {
        return Some(Word { number: 1, end });
    }
    let end = marks::quote(s, v, b"numeric")?;
    Some(Word { number: 2, end })
}

// The type that a number stands for.
fn type_of(number: usize) -> ValueType
    ensures { result ≡ type_from number }
{
    if number == 1 {
        ValueType::Text
    } else {
        ValueType::Number
    }
}

// The members of a context entry.
struct ContextLayout;

impl Layout for ContextLayout {
    ghost kinded = { contexts };

    // The member whose name stands at a place, told by the letter behind what all names begin with.
    fn which(s: &[u8], i: usize) -> Option<Member> {
        if s.len() - i < 12 {
            return None;
        }
        match s[i + 11] {
            b'N' => members::is(1, marks::named(s, i, b"ContextKeyName")),
            b'V' => members::is(2, marks::named(s, i, b"ContextKeyValues")),
            b'T' => members::is(3, marks::named(s, i, b"ContextKeyType")),
            _ => None,
        }
    }

    // The value of a word.
    fn part(s: &[u8], v: usize, run: &mut [u32], at: usize, turn: usize) -> Option<Part> {
        if turn == 1 {
            return Some(Part::laid(key_name(s, v, run, at)?, at));
        }
        if turn == 2 {
            return Some(Part::laid(strings::sole(s, v, run, at)?, at));
        }
        Some(Part::told(type_at(s, v)?, at))
    }
}

// The value's text made a value of its type, a number behind all parts: where the parts then lie.
fn typed(run: &mut [u32], spans: [usize; 12], kind: ValueType) -> Option<[usize; 12]>
    requires { Texting run.old spans }
    ensures { Values run.old run.new spans kind result }
{
    let first = spans[4] + 1;
    let to = spans[5];
    match kind {
        ValueType::Text => {
            if limits::ENTRY < to - first {
                return None;
            }
            Some(spans)
        }
        ValueType::Number => {
            let n = numbers::number_in(&run[first..to])?;
            let p = spans[1];
            if run.len() - p < 2 {
                return None;
            }
            let q = holding::put_number(run, p, n);
            let mut value = spans;
            value[4] = p;
            value[5] = q;
            value[1] = q;
            Some(value)
        }
    }
}

// The parts put in the order of a context entry: where it ends in the run, if none lacks and there is room.
fn arranged(run: &mut [u32], spans: [usize; 12], at: usize) -> Option<usize>
    requires { Sorting run.old spans at }
    ensures { (x : Slots) → Sorted run.old spans at x → IfSome result (Laid held_context run.old run.new at (context_from x)) }
{
    if spans[7] == 0 || spans[3] == 0 || spans[5] == 0 {
        return None;
    }
    let kind = type_of(spans[6]);
    let all = typed(run, spans, kind)?;
    let past = settling::settle(run, all, 2, at + 1)?;
    run[at] = kind.number();
    Some(past)
}

// A context entry: its type, its key and its value.
fn context(s: &[u8], v: usize, run: &mut [u32], at: usize) -> Option<Ended>
    requires { Roomy run.old at 0 }
    ensures { Takes held_context context_of 2 s.now run.old run.new v at result }
{
    if run.len() <= at {
        return None;
    }
    let i = marks::opened(s, v, b'{')?;
    let Ok(spans) = gathering::gathered::<ContextLayout>(s, i, run, at + 1) else {
        return None;
    };
    let past = arranged(run, spans, at)?;
    Some(Ended {
        past,
        end: spans[0],
    })
}

// The context entries of a list of at least one, no two of them with one key.
fn differing(s: &[u8], v: usize, run: &mut [u32], at: usize) -> Option<Listed>
    requires { Roomy run.old at 0 }
    ensures { TakesSeveral held_context (λ t. then (each_in context_of t) (differing same_context)) 3 s.now run.old run.new v at result }
{
    let mut i = marks::opened(s, v, b'[')?;
    let mut past = at;
    let mut count = 0usize;
    loop {
        let h = context(s, i, run, past)?;
        if keys::has_context_key(run, at, count, past) {
            return None;
        }
        past = h.past;
        count += 1;
        let Some(next) = marks::parted(s, h.end, b',') else {
            let end = marks::closed(s, h.end, b']')?;
            return Some(Listed { past, end, count });
        };
        i = next;
    }
}

// A list without elements: the place behind it.
fn no_contexts(s: &[u8], v: usize) -> Option<usize>
    ensures { Unless result (Reads s.now (a_value (list no_more)) v) }
{
    let i = marks::opened(s, v, b'[')?;
    marks::closed(s, i, b']')
}

// The context entries of a list, behind their number.
pub fn contexts(s: &[u8], v: usize, run: &mut [u32], at: usize) -> Option<Ended>
    requires { Roomy run.old at 0 }
    ensures { Takes (held_list held_context) contexts_of 3 s.now run.old run.new v at result }
{
    if run.len() <= at {
        return None;
    }
    if let Some(end) = no_contexts(s, v) {
        run[at] = 0;
        return Some(Ended { past: at + 1, end });
    }
    let Listed { past, end, count } = differing(s, v, run, at + 1)?;
    if limits::CONTEXTS < count {
        return None;
    }
    run[at] = count as u32;
    Some(Ended { past, end })
}
