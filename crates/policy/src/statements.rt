// A policy's statements, read where they stand and held in a run.
ghost use Rattle.std.specs.Prelude.{◌≡◌, ◌<◌, false, [], ℕ};
ghost use Rattle.text.specs.Json.{Json, Values, Members, list, object};
ghost use Rattle.text.specs.Contents.{Stands, Standing, StandingObject};
ghost use Rattle.syntax.specs.Forms.{wrong};
ghost use Rattle.syntax.specs.Members.{then, Slot, optional, each, one_or_more, differing};
ghost use Rattle.parts.specs.Slots.{Placed};
ghost use Rattle.syntax.specs.PolicyLayout.{sid_of, condition_of, statement_of, same_sid, policy_of};
ghost use Rattle.held.specs.Held.{effect_number, held_text, held_list, held_row, held_statement, held};
ghost use Rattle.parts.specs.Room.{Holdable, HoldableList, HoldableObject, HoldableSlot};
ghost use Rattle.parts.specs.Spoken.{effect_is};
ghost use Rattle.parts.specs.Holding.{Holds, HoldsTo, GathersTo};
ghost use Rattle.policy.specs.Statements.{parts_of, held_parts, Adds};
ghost use Rattle.policy.specs.Statements.{HoldableParts, HoldablePolicy, Frames};

use crate::rows;
use held::runs;
use parts::entries::Entry;
use parts::holding::{Ended, Listed};
use parts::members::Layout;
use parts::words::Effect;
use parts::{entries, members, words};
use text::walk;
use text::walk::{Element, Kind, Member};

// A policy's members so far: where Version's value stands, and before which place of the run ends what was held of
// Statement; 0 for one that has not come. The last of them ends before `end` in the text.
#[derive(Clone, Copy)]
pub struct Partly {
    pub version: usize,
    pub past: usize,
    pub end: usize,
}

// The number that tells an effect.
fn effect_number(e: Effect) -> u32
    ensures { result ≡ effect_number (effect_is e) }
{
    match e {
        Effect::Allow => 1,
        Effect::Deny => 2,
    }
}

// A Sid that stands at a place, or at 0 none: a text of no characters.
fn hold_sid_at(s: &[u8], v: usize, run: &mut [u32], at: usize) -> Option<usize>
    requires { HoldableSlot s.now v run.old at 1 }
    ensures { (x : Slot) → Placed s.now v x → Holds held_text run.old run.new at (optional [] sid_of x) result }
{
    if v == 0 {
        run[at] = 0;
        return Some(at + 1);
    }
    let Ended { past, .. } = entries::hold_sid(s, v, run, at)?;
    Some(past)
}

// A condition that stands at a place, or at 0 none: no rows.
fn hold_condition_at(s: &[u8], v: usize, run: &mut [u32], at: usize) -> Option<usize>
    requires { HoldableSlot s.now v run.old at 1 }
    ensures { (x : Slot) → Placed s.now v x → Holds (held_list held_row) run.old run.new at (optional [] condition_of x) result }
{
    if v == 0 {
        run[at] = 0;
        return Some(at + 1);
    }
    let Ended { past, .. } = rows::hold_condition(s, v, run, at)?;
    Some(past)
}

// What a statement has besides its effect, from the places of its members.
fn hold_parts(
    s: &[u8],
    sid: usize,
    action: usize,
    resource: usize,
    condition: usize,
    run: &mut [u32],
    at: usize,
) -> Option<usize>
    requires { HoldableParts s.now sid action resource condition run.old at }
    ensures { (i c : Slot) (x y : Json) (e f : ℕ) → Placed s.now sid i → Stands s.now x action e → Stands s.now y resource f → Placed s.now condition c → Holds held_parts run.old run.new at (parts_of i x y c) result }
{
    let p = hold_sid_at(s, sid, run, at)?;
    let g = entries::hold_entries(s, action, run, p, Entry::Action)?;
    let k = entries::hold_entries(s, resource, run, g.past, Entry::Resource)?;
    hold_condition_at(s, condition, run, k.past)
}

// The statement that an object is.
fn hold_object(s: &[u8], v: usize, run: &mut [u32], at: usize) -> Option<Ended>
    requires { HoldableObject s.now v run.old at }
    ensures { (ms : Members) (e : ℕ) → Stands s.now (object ms) v e → HoldsTo held_statement run.old run.new at (statement_of (object ms)) e result }
{
    let places = members::slots(s, v, Layout::Statement);
    let end = places[0];
    if end == 0 {
        return None;
    }
    let effect = places[2];
    if effect == 0 {
        return None;
    }
    let action = places[3];
    if action == 0 {
        return None;
    }
    let resource = places[4];
    if resource == 0 {
        return None;
    }
    let e = words::effect_at(s, effect)?;
    let first = at + 1;
    let past = hold_parts(s, places[1], action, resource, places[5], run, first)?;
    run[at] = effect_number(e);
    Some(Ended { past, end })
}

// The statement that stands at a place.
fn hold_statement(s: &[u8], v: usize, run: &mut [u32], at: usize) -> Option<Ended>
    requires { Holdable s.now v run.old at 0 }
    ensures { (t : Json) (e : ℕ) → Stands s.now t v e → HoldsTo held_statement run.old run.new at (statement_of t) e result }
{
    if walk::kind_at(s, v) != Kind::Object {
        return None;
    }
    hold_object(s, v, run, at)
}

// The statements of the list that stands at a place; no two have the same Sid.
fn hold_statements(s: &[u8], v: usize, run: &mut [u32], at: usize) -> Option<Listed>
    requires { HoldableList s.now v run.old at }
    ensures { (ts : Values) (e : ℕ) → Stands s.now (list ts) v e → GathersTo held_statement run.old run.new at (then (each statement_of ts) (differing same_sid)) e result }
{
    let mut m = walk::first_element(s, v);
    let mut past = at;
    let mut count = 0usize;
    loop {
        match m {
            Element::At(i) => {
                let h = hold_statement(s, i, run, past)?;
                if runs::has_sid(run, at, count, past) {
                    return None;
                }
                past = h.past;
                count += 1;
                m = walk::next_element(s, h.end);
            }
            Element::Past(end) => return Some(Listed { past, end, count }),
        }
    }
}

// One statement or a list of at least one, behind their number.
fn hold_several(s: &[u8], v: usize, run: &mut [u32]) -> Option<Ended>
    requires { Holdable s.now v run.old 0 1 }
    ensures { (t : Json) (e : ℕ) → Stands s.now t v e → HoldsTo held run.old run.new 0 (then (one_or_more statement_of t) (differing same_sid)) e result }
{
    if walk::kind_at(s, v) != Kind::List {
        let h = hold_statement(s, v, run, 1)?;
        run[0] = 1;
        return Some(h);
    }
    let Listed { past, end, count } = hold_statements(s, v, run, 1)?;
    if count == 0 {
        return None;
    }
    run[0] = count as u32;
    Some(Ended { past, end })
}

// One more member of a policy, by its word's turn `k`, beside what came before it; neither word comes twice.
fn hold_member(
    s: &[u8],
    k: usize,
    v: usize,
    run: &mut [u32],
    version: usize,
    past: usize,
) -> Option<Partly>
    requires { (0 < k) × (Holdable s.now v run.old 0 1) }
    ensures { (t : Json) (e : ℕ) → Stands s.now t v e → Adds k v t e run.old run.new version past result }
{
    if k == 1 {
        if version != 0 {
            return None;
        }
        if !words::is_edition(s, v) {
            return None;
        }
        return Some(Partly {
            version: v,
            past,
            end: walk::past_value(s, v),
        });
    }
    if past != 0 {
        return None;
    }
    let h = hold_several(s, v, run)?;
    Some(Partly {
        version,
        past: h.past,
        end: h.end,
    })
}

// The policy that an object is, from the run's beginning on: each member is held where the walk comes to it.
fn hold_members(s: &[u8], v: usize, run: &mut [u32]) -> Option<usize>
    requires { HoldableObject s.now v run.old 1 }
    ensures { (ms : Members) (e : ℕ) → Stands s.now (object ms) v e → Holds held run.old run.new 0 (policy_of (object ms)) result }
{
    let mut version = 0usize;
    let mut past = 0usize;
    let mut m = walk::first_member(s, v);
    loop {
        let Member::Named { name, end, value } = m else {
            if version == 0 {
                return None;
            }
            if past == 0 {
                return None;
            }
            return Some(past);
        };
        let k = members::which(&s[name..end], Layout::Policy)?;
        let h = hold_member(s, k, value, run, version, past)?;
        version = h.version;
        past = h.past;
        m = walk::next_member(s, h.end);
    }
}

// Has an object the right Version, if that is its first member?
fn begins_right(s: &[u8], v: usize) -> bool
    requires { StandingObject s.now v }
    ensures { result ≡ false → (ms : Members) (e : ℕ) → Stands s.now (object ms) v e → policy_of (object ms) ≡ wrong }
{
    let m = walk::first_member(s, v);
    let Member::Named { name, end, value } = m else {
        return true;
    };
    let Some(turn) = members::which(&s[name..end], Layout::Policy) else {
        return true;
    };
    if turn != 1 {
        return true;
    }
    words::is_edition(s, value)
}

// Has an object a policy's members, none unknown or repeated, and the right Version?
fn has_frame(s: &[u8], v: usize) -> bool
    requires { StandingObject s.now v }
    ensures { result ≡ false → (ms : Members) (e : ℕ) → Stands s.now (object ms) v e → policy_of (object ms) ≡ wrong }
{
    if !begins_right(s, v) {
        return false;
    }
    let places = members::slots(s, v, Layout::Policy);
    if places[0] == 0 {
        return false;
    }
    let version = places[1];
    if version == 0 {
        return false;
    }
    words::is_edition(s, version)
}

// Is a value an object with a policy's members and the right Version? If not, no statement need be looked at.
pub fn is_framed(s: &[u8], v: usize) -> bool
    requires { Standing s.now v }
    ensures { Frames s.now v result }
{
    if walk::kind_at(s, v) != Kind::Object {
        return false;
    }
    has_frame(s, v)
}

// The policy that stands at a place, from the run's beginning on.
pub fn hold_policy(s: &[u8], v: usize, run: &mut [u32]) -> Option<usize>
    requires { HoldablePolicy s.now v run.old }
    ensures { (t : Json) (e : ℕ) → Stands s.now t v e → Holds held run.old run.new 0 (policy_of t) result }
{
    if !is_framed(s, v) {
        return None;
    }
    hold_members(s, v, run)
}
