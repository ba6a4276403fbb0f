// The rows of a condition, held in the order in which they stand.
ghost use Rattle.std.specs.Prelude.{ℕ};
ghost use Rattle.chars.specs.Base.{part};
ghost use Rattle.text.specs.Json.{Json, Members, object};
ghost use Rattle.text.specs.Contents.{Stands};
ghost use Rattle.syntax.specs.Members.{then, members, differing};
ghost use Rattle.syntax.specs.PolicyLayout.{row_of, same_row, rows_of, operators_in, condition_of};
ghost use Rattle.held.specs.Held.{held_row, held_list};
ghost use Rattle.parts.specs.Room.{HoldableMember, HoldableObject, Holdable};
ghost use Rattle.parts.specs.Spoken.{operator_is};
ghost use Rattle.parts.specs.Holding.{HoldsTo, GathersTo};

use held::runs;
use parts::entries::Entry;
use parts::holding::{Ended, Listed};
use parts::words::Operator;
use parts::{entries, words};
use text::walk;
use text::walk::{Kind, Member};

// A row: its operator, its key from the raw name, its values.
fn hold_row(
    s: &[u8],
    name: usize,
    end: usize,
    v: usize,
    run: &mut [u32],
    at: usize,
    o: Operator,
) -> Option<Ended>
    requires { HoldableMember s.now name end v run.old at }
    ensures { (t : Json) (e : ℕ) → Stands s.now t v e → HoldsTo held_row run.old run.new at (row_of (operator_is o) (part s.now name end) t) e result }
{
    let first = at + 1;
    let p = entries::hold_key(&s[name..end], run, first)?;
    let h = entries::hold_entries(s, v, run, p, Entry::Value(o))?;
    run[at] = o.number();
    Some(h)
}

// The rows of one operator, whose object stands at a place; no two have the same key.
fn hold_rows(s: &[u8], v: usize, run: &mut [u32], at: usize, o: Operator) -> Option<Listed>
    requires { HoldableObject s.now v run.old at }
    ensures { (ms : Members) (e : ℕ) → Stands s.now (object ms) v e → GathersTo held_row run.old run.new at (then (members (row_of (operator_is o)) ms) (differing same_row)) e result }
{
    let mut m = walk::first_member(s, v);
    let mut past = at;
    let mut count = 0usize;
    loop {
        match m {
            Member::Named { name, end, value } => {
                let h = hold_row(s, name, end, value, run, past, o)?;
                if runs::has_key(run, at, count, past) {
                    return None;
                }
                past = h.past;
                count += 1;
                m = walk::next_member(s, h.end);
            }
            Member::Past(end) => return Some(Listed { past, end, count }),
        }
    }
}

// The rows of the operator whose value stands at a place, of which there is at least one.
fn hold_group(s: &[u8], v: usize, run: &mut [u32], at: usize, o: Operator) -> Option<Listed>
    requires { Holdable s.now v run.old at 0 }
    ensures { (t : Json) (e : ℕ) → Stands s.now t v e → GathersTo held_row run.old run.new at (rows_of (operator_is o) t) e result }
{
    if walk::kind_at(s, v) != Kind::Object {
        return None;
    }
    let rows = hold_rows(s, v, run, at, o)?;
    if rows.count == 0 {
        return None;
    }
    Some(rows)
}

// The rows of all operators of the object that stands at a place; no operator stands twice.
fn hold_operators(s: &[u8], v: usize, run: &mut [u32], at: usize) -> Option<Listed>
    requires { HoldableObject s.now v run.old at }
    ensures { (ms : Members) (e : ℕ) → Stands s.now (object ms) v e → GathersTo held_row run.old run.new at (operators_in ms) e result }
{
    let mut seen = [false; 4];
    let mut m = walk::first_member(s, v);
    let mut past = at;
    let mut count = 0usize;
    loop {
        match m {
            Member::Named { name, end, value } => {
                let o = words::operator_named(&s[name..end])?;
                let k = o.number() as usize;
                if seen[k] {
                    return None;
                }
                seen[k] = true;
                let rows = hold_group(s, value, run, past, o)?;
                past = rows.past;
                count += rows.count;
                m = walk::next_member(s, rows.end);
            }
            Member::Past(end) => return Some(Listed { past, end, count }),
        }
    }
}

// A condition: its rows behind their number, of which there is at least one.
pub fn hold_condition(s: &[u8], v: usize, run: &mut [u32], at: usize) -> Option<Ended>
    requires { Holdable s.now v run.old at 0 }
    ensures { (t : Json) (e : ℕ) → Stands s.now t v e → HoldsTo (held_list held_row) run.old run.new at (condition_of t) e result }
{
    if walk::kind_at(s, v) != Kind::Object {
        return None;
    }
    let first = at + 1;
    let Listed { past, end, count } = hold_operators(s, v, run, first)?;
    if count == 0 {
        return None;
    }
    run[at] = count as u32;
    Some(Ended { past, end })
}
