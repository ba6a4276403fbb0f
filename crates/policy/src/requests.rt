// A record held as numbers in a lent run: its action, its resource and its context entries.
ghost use Rattle.std.specs.Prelude.{[], ◌∷◌, ℕ};
ghost use Rattle.text.specs.Json.{Json};
ghost use Rattle.text.specs.Contents.{Stands};
ghost use Rattle.syntax.specs.Members.{Slot, required, optional};
ghost use Rattle.syntax.specs.RecordLayout.{only_one, action_name_of};
ghost use Rattle.syntax.specs.RecordLayout.{resource_arn_of, request_of};
ghost use Rattle.held.specs.Held.{held_text, held_request};
ghost use Rattle.parts.specs.Slots.{Placed};
ghost use Rattle.parts.specs.Room.{Holdable, HoldableSlot};
ghost use Rattle.parts.specs.Holding.{Holds};

use crate::contexts;
use parts::members::Layout;
use parts::{members, sole};
use text::walk;
use text::walk::Kind;

fn hold_action_name(s: &[u8], v: usize, run: &mut [u32], at: usize) -> Option<usize>
    requires { HoldableSlot s.now v run.old at 0 }
    ensures { (x : Slot) → Placed s.now v x → Holds held_text run.old run.new at (required (only_one action_name_of) x) result }
{
    let past = sole::hold_only(s, v, run, at)?;
    let first = at + 1;
    if !straight::forms::is_action_name(&run[first..past]) {
        return None;
    }
    Some(past)
}

// An absent resource is the text "*".
fn hold_resource_arn(s: &[u8], v: usize, run: &mut [u32], at: usize) -> Option<usize>
    requires { HoldableSlot s.now v run.old at 2 }
    ensures { (x : Slot) → Placed s.now v x → Holds held_text run.old run.new at (optional (42 ∷ []) (only_one resource_arn_of) x) result }
{
    let first = at + 1;
    if v == 0 {
        run[first] = b'*' as u32;
        run[at] = 1;
        return Some(at + 2);
    }
    let past = sole::hold_only(s, v, run, at)?;
    if !straight::forms::is_resource_arn(&run[first..past]) {
        return None;
    }
    Some(past)
}

// The record that stands at a place.
pub fn hold_request(s: &[u8], v: usize, run: &mut [u32]) -> Option<usize>
    requires { Holdable s.now v run.old 0 0 }
    ensures { (t : Json) (e : ℕ) → Stands s.now t v e → Holds held_request run.old run.new 0 (request_of t) result }
{
    if walk::kind_at(s, v) != Kind::Object {
        return None;
    }
    let places = members::slots(s, v, Layout::Record);
    if places[0] == 0 {
        return None;
    }
    let p = hold_action_name(s, places[1], run, 0)?;
    let q = hold_resource_arn(s, places[2], run, p)?;
    contexts::hold_contexts(s, places[3], run, q)
}
