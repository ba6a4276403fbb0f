// Is a member of a statement one that no statement has?
ghost use Rattle.std.specs.Prelude.{◌≡◌, true, ℕ, ◌≤◌, length};
ghost use Rattle.text.specs.Json.{Json};
ghost use Rattle.text.specs.Contents.{Stands, Entering};
ghost use Rattle.syntax.specs.Limits.{run_numbers};
ghost use Rattle.parts.specs.Room.{Holdable};
ghost use Rattle.parts.specs.Unfit.{UnfitAs, Bad};

use crate::rows;
use parts::entries::Entry;
use parts::members::Layout;
use parts::{entries, members, words};
use text::walk;
use text::walk::Member;

// Is the value at a place none that the word of a turn asks for? It is held from the run's beginning on, to see.
fn is_unfit(s: &[u8], v: usize, run: &mut [u32], turn: usize) -> bool
    requires { Holdable s.now v run.old 0 1 }
    ensures { (length run.new ≡ length run.old) × (result ≡ true → (t : Json) (e : ℕ) → Stands s.now t v e → UnfitAs turn t) }
{
    match turn {
        1 => entries::hold_sid(s, v, run, 0).is_none(),
        2 => words::effect_at(s, v).is_none(),
        3 => entries::hold_entries(s, v, run, 0, Entry::Action).is_none(),
        4 => entries::hold_entries(s, v, run, 0, Entry::Resource).is_none(),
        5 => rows::hold_condition(s, v, run, 0).is_none(),
        _ => false,
    }
}

// Is the member whose name's opening quote stands at a place one that no statement has?
pub fn member_at(s: &[u8], at: usize, run: &mut [u32]) -> bool
    requires { (Entering s.now at) × ((length s.now ≤ length run.old) × (length run.old ≤ run_numbers)) }
    ensures { (length run.new ≡ length run.old) × (result ≡ true → Bad s.now at) }
{
    let m = walk::entry(s, at);
    let Member::Named { name, end, value } = m else {
        return false;
    };
    match members::which(&s[name..end], Layout::Statement) {
        Some(turn) => is_unfit(s, value, run, turn),
        None => true,
    }
}
