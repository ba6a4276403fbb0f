// The context entries of a record, held as numbers in a lent run one behind the other.
ghost use Rattle.std.specs.Prelude.{◌≡◌, [], ℕ};
ghost use Rattle.text.specs.Json.{Json, Values, list};
ghost use Rattle.text.specs.Contents.{Stands};
ghost use Rattle.syntax.specs.Members.{Slot, then, characters_of, required, optional, each, differing};
ghost use Rattle.syntax.specs.RecordLayout.{only_one, key_name_of, context_of, same_context, contexts_of};
ghost use Rattle.held.specs.Held.{held_text, held_value, held_list, held_context};
ghost use Rattle.parts.specs.Slots.{Placed};
ghost use Rattle.parts.specs.Room.{Holdable, HoldableList, HoldableSlot};
ghost use Rattle.parts.specs.Holding.{Holds, HoldsTo, GathersTo};
ghost use Rattle.parts.specs.Requests.{Placing, type_of, typed_as};

use held::limits;
use parts::holding::{Ended, Listed};
use parts::members::Layout;
use parts::words::ValueType;
use parts::{holding, members, sole, words};
use syntax::numbers;
use text::walk;
use text::walk::{Element, Kind};

// The key name that stands at a place.
fn hold_name(s: &[u8], v: usize, run: &mut [u32], at: usize) -> Option<Ended>
    requires { Holdable s.now v run.old at 0 }
    ensures { (t : Json) (e : ℕ) → Stands s.now t v e → HoldsTo held_text run.old run.new at (key_name_of t) e result }
{
    let h = holding::hold_string(s, v, run, at)?;
    let first = at + 1;
    if !straight::forms::is_key_name(&run[first..h.past]) {
        return None;
    }
    Some(h)
}

// The key name of a member; a place of 0 is an absent one.
fn hold_key_name(s: &[u8], v: usize, run: &mut [u32], at: usize) -> Option<usize>
    requires { HoldableSlot s.now v run.old at 0 }
    ensures { (x : Slot) → Placed s.now v x → Holds held_text run.old run.new at (required key_name_of x) result }
{
    if v == 0 {
        return None;
    }
    let Ended { past, .. } = hold_name(s, v, run, at)?;
    Some(past)
}

// The type that a member names.
fn type_at(s: &[u8], v: usize) -> Option<ValueType>
    requires { Placing s.now v }
    ensures { (x : Slot) → Placed s.now v x → result ≡ type_of x }
{
    if v == 0 {
        return None;
    }
    let t = words::type_at(s, v)?;
    Some(t.kind)
}

// The value of a type that stands at a place, as a list of one string.
fn hold_value(s: &[u8], v: usize, run: &mut [u32], at: usize, kind: ValueType) -> Option<Ended>
    requires { Holdable s.now v run.old at 0 }
    ensures { (t : Json) (e : ℕ) → Stands s.now t v e → HoldsTo held_value run.old run.new at (then (only_one characters_of t) (typed_as kind)) e result }
{
    let h = sole::hold_sole(s, v, run, at)?;
    let first = at + 1;
    match kind {
        ValueType::Text => {
            if limits::ENTRY < h.past - first {
                return None;
            }
            Some(h)
        }
        ValueType::Number => {
            let n = numbers::number_in(&run[first..h.past])?;
            Some(Ended {
                past: holding::put_number(run, at, n),
                end: h.end,
            })
        }
    }
}

// The value of a context entry, by the type that it names; a place of 0 is an absent one.
fn hold_typed(s: &[u8], v: usize, run: &mut [u32], at: usize, kind: ValueType) -> Option<usize>
    requires { HoldableSlot s.now v run.old at 0 }
    ensures { (x : Slot) → Placed s.now v x → Holds held_value run.old run.new at (then (required (only_one characters_of) x) (typed_as kind)) result }
{
    if v == 0 {
        return None;
    }
    let Ended { past, .. } = hold_value(s, v, run, at, kind)?;
    Some(past)
}

// A context entry: its type, its key and its value.
fn hold_context(s: &[u8], v: usize, run: &mut [u32], at: usize) -> Option<Ended>
    requires { Holdable s.now v run.old at 0 }
    ensures { (t : Json) (e : ℕ) → Stands s.now t v e → HoldsTo held_context run.old run.new at (context_of t) e result }
{
    if walk::kind_at(s, v) != Kind::Object {
        return None;
    }
    let places = members::slots(s, v, Layout::Context);
    let end = places[0];
    if end == 0 {
        return None;
    }
    let p = hold_key_name(s, places[1], run, at + 1)?;
    let kind = type_at(s, places[2])?;
    run[at] = kind.number();
    let past = hold_typed(s, places[3], run, p, kind)?;
    Some(Ended { past, end })
}

// The context entries of the list that stands at a place, no two of them with one key.
fn hold_differing(s: &[u8], v: usize, run: &mut [u32], at: usize) -> Option<Listed>
    requires { HoldableList s.now v run.old at }
    ensures { (ts : Values) (e : ℕ) → Stands s.now (list ts) v e → GathersTo held_context run.old run.new at (then (each context_of ts) (differing same_context)) e result }
{
    let mut m = walk::first_element(s, v);
    let mut past = at;
    let mut count = 0usize;
    loop {
        match m {
            Element::Past(end) => return Some(Listed { past, end, count }),
            Element::At(i) => {
                let h = hold_context(s, i, run, past)?;
                if straight::keys::has_context_key(run, at, count, past) {
                    return None;
                }
                past = h.past;
                count += 1;
                m = walk::next_element(s, h.end);
            }
        }
    }
}

// The context entries that stand at a place, behind their number.
fn hold_listed(s: &[u8], v: usize, run: &mut [u32], at: usize) -> Option<Ended>
    requires { Holdable s.now v run.old at 1 }
    ensures { (t : Json) (e : ℕ) → Stands s.now t v e → HoldsTo (held_list held_context) run.old run.new at (contexts_of t) e result }
{
    if walk::kind_at(s, v) != Kind::List {
        return None;
    }
    let Listed { past, end, count } = hold_differing(s, v, run, at + 1)?;
    if limits::CONTEXTS < count {
        return None;
    }
    run[at] = count as u32;
    Some(Ended { past, end })
}

// The context entries of a member, behind their number; there are none where it is absent.
pub fn hold_contexts(s: &[u8], v: usize, run: &mut [u32], at: usize) -> Option<usize>
    requires { HoldableSlot s.now v run.old at 1 }
    ensures { (x : Slot) → Placed s.now v x → Holds (held_list held_context) run.old run.new at (optional [] contexts_of x) result }
{
    if v == 0 {
        run[at] = 0;
        return Some(at + 1);
    }
    let Ended { past, .. } = hold_listed(s, v, run, at)?;
    Some(past)
}
