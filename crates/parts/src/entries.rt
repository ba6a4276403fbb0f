// Texts and numbers with a form of their own, held in a run: a Sid, a key, the entries of lists.
ghost use Rattle.std.specs.Prelude.{ℕ, ◌+◌, length};
ghost use Rattle.text.specs.Json.{Json, Values, list};
ghost use Rattle.text.specs.Contents.{Stands};
ghost use Rattle.syntax.specs.Members.{then, characters_of, each, one_or_more};
ghost use Rattle.syntax.specs.Forms.{symbols_of};
ghost use Rattle.syntax.specs.PolicyLayout.{sid_of, key_of, action_of, resource_of, number_of_json};
ghost use Rattle.held.specs.Held.{held_text, held_number, held_value, held_list};
ghost use Rattle.parts.specs.Room.{Roomy, Holdable, HoldableList};
ghost use Rattle.parts.specs.Holding.{Holds, HoldsTo, GathersTo, Finds, entry_of};

use crate::holding;
use crate::holding::{Ended, Listed};
use crate::words::Operator;
use syntax::{forms, numbers, symbols};
use text::walk;
use text::walk::{Element, Kind};

// The kinds of list.
#[derive(Clone, Copy)]
pub enum Entry {
    Action,
    Resource,
    Value(Operator),
}

pub fn hold_sid(s: &[u8], v: usize, run: &mut [u32], at: usize) -> Option<Ended>
    requires { Holdable s.now v run.old at 0 }
    ensures { (t : Json) (e : ℕ) → Stands s.now t v e → HoldsTo held_text run.old run.new at (sid_of t) e result }
{
    let h = holding::hold_string(s, v, run, at)?;
    let first = at + 1;
    if !forms::is_sid(&run[first..h.past]) {
        return None;
    }
    Some(h)
}

// A condition key, from its raw name: the place behind it.
pub fn hold_key(raw: &[u8], run: &mut [u32], at: usize) -> Option<usize>
    requires { Roomy run.old at (1 + length raw.now) }
    ensures { Holds held_text run.old run.new at (key_of raw.now) result }
{
    let past = holding::hold_raw(raw, run, at)?;
    let first = at + 1;
    if !forms::is_key(&run[first..past]) {
        return None;
    }
    Some(past)
}

// An Action entry, its wildcards apart from every character.
fn hold_action(s: &[u8], v: usize, run: &mut [u32], at: usize) -> Option<Ended>
    requires { Holdable s.now v run.old at 0 }
    ensures { (t : Json) (e : ℕ) → Stands s.now t v e → HoldsTo held_text run.old run.new at (action_of t) e result }
{
    let h = holding::hold_string(s, v, run, at)?;
    let first = at + 1;
    if !forms::is_action(&run[first..h.past]) {
        return None;
    }
    symbols::wildcards(&mut run[first..h.past]);
    Some(h)
}

// A text with its escapes resolved, its wildcards apart where there are some.
fn hold_symbols(s: &[u8], v: usize, run: &mut [u32], at: usize, wild: bool) -> Option<Ended>
    requires { Holdable s.now v run.old at 0 }
    ensures { (t : Json) (e : ℕ) → Stands s.now t v e → HoldsTo held_text run.old run.new at (then (characters_of t) (symbols_of wild)) e result }
{
    let Ended { past, end } = holding::hold_string(s, v, run, at)?;
    let first = at + 1;
    let n = symbols::symbols(&mut run[first..past], wild)?;
    run[at] = n as u32;
    Some(Ended {
        past: first + n,
        end,
    })
}

fn hold_resource(s: &[u8], v: usize, run: &mut [u32], at: usize) -> Option<Ended>
    requires { Holdable s.now v run.old at 0 }
    ensures { (t : Json) (e : ℕ) → Stands s.now t v e → HoldsTo held_text run.old run.new at (resource_of t) e result }
{
    let h = hold_symbols(s, v, run, at, true)?;
    let first = at + 1;
    if !forms::is_resource(&run[first..h.past]) {
        return None;
    }
    Some(h)
}

// The number that stands at a place, as a JSON number or a string; its characters may be written behind a place.
fn number_at(s: &[u8], v: usize, run: &mut [u32], at: usize) -> Option<u64>
    requires { Holdable s.now v run.old at 0 }
    ensures { (t : Json) (e : ℕ) → Stands s.now t v e → Finds run.old run.new at (number_of_json t) result }
{
    if walk::kind_at(s, v) == Kind::Number {
        let e = walk::past_value(s, v);
        return numbers::number_spelt(&s[v..e]);
    }
    let past = holding::hold_text(s, v, run, at)?;
    let first = at + 1;
    numbers::number_in(&run[first..past])
}

fn hold_number(s: &[u8], v: usize, run: &mut [u32], at: usize) -> Option<Ended>
    requires { Holdable s.now v run.old at 0 }
    ensures { (t : Json) (e : ℕ) → Stands s.now t v e → HoldsTo held_number run.old run.new at (number_of_json t) e result }
{
    let n = number_at(s, v, run, at)?;
    Some(Ended {
        past: holding::put_number(run, at, n),
        end: walk::past_value(s, v),
    })
}

fn hold_value(s: &[u8], v: usize, run: &mut [u32], at: usize, o: Operator) -> Option<Ended>
    requires { Holdable s.now v run.old at 0 }
    ensures { (t : Json) (e : ℕ) → Stands s.now t v e → HoldsTo held_value run.old run.new at (entry_of (Entry.Value o) t) e result }
{
    match o {
        Operator::StringEquals => hold_symbols(s, v, run, at, false),
        Operator::StringLike => hold_symbols(s, v, run, at, true),
        Operator::NumericLessThanEquals => hold_number(s, v, run, at),
    }
}

fn hold_entry(s: &[u8], v: usize, run: &mut [u32], at: usize, k: Entry) -> Option<Ended>
    requires { Holdable s.now v run.old at 0 }
    ensures { (t : Json) (e : ℕ) → Stands s.now t v e → HoldsTo held_value run.old run.new at (entry_of k t) e result }
{
    match k {
        Entry::Action => hold_action(s, v, run, at),
        Entry::Resource => hold_resource(s, v, run, at),
        Entry::Value(o) => hold_value(s, v, run, at, o),
    }
}

// The entries of the list that stands at a place.
fn hold_list(s: &[u8], v: usize, run: &mut [u32], at: usize, k: Entry) -> Option<Listed>
    requires { HoldableList s.now v run.old at }
    ensures { (ts : Values) (e : ℕ) → Stands s.now (list ts) v e → GathersTo held_value run.old run.new at (each (entry_of k) ts) e result }
{
    let mut m = walk::first_element(s, v);
    let mut past = at;
    let mut count = 0usize;
    loop {
        match m {
            Element::At(i) => {
                let h = hold_entry(s, i, run, past, k)?;
                past = h.past;
                count += 1;
                m = walk::next_element(s, h.end);
            }
            Element::Past(end) => return Some(Listed { past, end, count }),
        }
    }
}

// One entry or a list of at least one, behind their number.
pub fn hold_entries(s: &[u8], v: usize, run: &mut [u32], at: usize, k: Entry) -> Option<Ended>
    requires { Holdable s.now v run.old at 1 }
    ensures { (t : Json) (e : ℕ) → Stands s.now t v e → HoldsTo (held_list held_value) run.old run.new at (one_or_more (entry_of k) t) e result }
{
    let first = at + 1;
    if walk::kind_at(s, v) != Kind::List {
        let h = hold_entry(s, v, run, first, k)?;
        run[at] = 1;
        return Some(h);
    }
    let Listed { past, end, count } = hold_list(s, v, run, first, k)?;
    if count == 0 {
        return None;
    }
    run[at] = count as u32;
    Some(Ended { past, end })
}
