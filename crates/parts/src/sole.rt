// A list of exactly one string, as the members of a record have it.
ghost use Rattle.std.specs.Prelude.{ℕ};
ghost use Rattle.text.specs.Json.{Json};
ghost use Rattle.text.specs.Contents.{Stands};
ghost use Rattle.syntax.specs.Members.{Slot, characters_of, required};
ghost use Rattle.syntax.specs.RecordLayout.{only_one};
ghost use Rattle.held.specs.Held.{held_text};
ghost use Rattle.parts.specs.Slots.{Placed};
ghost use Rattle.parts.specs.Holding.{Holds, HoldsTo};
ghost use Rattle.parts.specs.Room.{Holdable, HoldableSlot};

use crate::holding;
use crate::holding::Ended;
use text::walk;
use text::walk::{Element, Kind};

// The one string of the list that stands at a place.
pub fn hold_sole(s: &[u8], v: usize, run: &mut [u32], at: usize) -> Option<Ended>
    requires { Holdable s.now v run.old at 0 }
    ensures { (t : Json) (e : ℕ) → Stands s.now t v e → HoldsTo held_text run.old run.new at (only_one characters_of t) e result }
{
    if walk::kind_at(s, v) != Kind::List {
        return None;
    }
    let Element::At(i) = walk::first_element(s, v) else {
        return None;
    };
    let Ended { past, end } = holding::hold_string(s, i, run, at)?;
    let Element::Past(end) = walk::next_element(s, end) else {
        return None;
    };
    Some(Ended { past, end })
}

// The one string of a member's list; a place of 0 is an absent member.
pub fn hold_only(s: &[u8], v: usize, run: &mut [u32], at: usize) -> Option<usize>
    requires { HoldableSlot s.now v run.old at 0 }
    ensures { (x : Slot) → Placed s.now v x → Holds held_text run.old run.new at (required (only_one characters_of) x) result }
{
    if v == 0 {
        return None;
    }
    let Ended { past, .. } = hold_sole(s, v, run, at)?;
    Some(past)
}
