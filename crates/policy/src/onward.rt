// A policy text whose reading was given up at a place: it is judged from there on.
ghost use Rattle.std.specs.Prelude.{◌≡◌, Ok, true, [], ◌∷◌, ◌++◌, ◌≤◌, length};
ghost use Rattle.text.specs.Machine.{ws, from, verdict};
ghost use Rattle.syntax.specs.Limits.{run_numbers};
ghost use Rattle.objects.specs.Leaving.{within, outside, owing, place_in, Blame, BlameAt};

use crate::unfit;
use objects::leaving::{Owed, Place};
use text::fault::Fault;
use text::scan::Shape;
use text::{onward, scan};

// Behind a member of the policy.
fn behind(s: &[u8], at: usize) -> Result<(), Fault>
    requires { at ≤ length s.now }
    ensures { result ≡ from (outside ++ (ws ∷ [])) s.now at }
{
    let n = onward::rest(s, at, Shape::Object, 15)?;
    scan::ended(s, n)
}

// Behind a statement of a list.
fn next(s: &[u8], at: usize) -> Result<(), Fault>
    requires { at ≤ length s.now }
    ensures { result ≡ from ((within Owed.Next ++ outside) ++ (ws ∷ [])) s.now at }
{
    let n = onward::rest(s, at, Shape::List, 14)?;
    behind(s, n)
}

// At a member's name of a statement that stands by itself.
fn alone(s: &[u8], at: usize) -> Result<(), Fault>
    requires { at ≤ length s.now }
    ensures { result ≡ from ((within Owed.Alone ++ outside) ++ (ws ∷ [])) s.now at }
{
    let n = onward::members(s, at, 14)?;
    behind(s, n)
}

// At a member's name of a statement in a list.
fn listed(s: &[u8], at: usize) -> Result<(), Fault>
    requires { at ≤ length s.now }
    ensures { result ≡ from ((within Owed.Listed ++ outside) ++ (ws ∷ [])) s.now at }
{
    let n = onward::members(s, at, 13)?;
    next(s, n)
}

// What the text is, from a place inside the value of Statement on.
fn inside(s: &[u8], at: usize, owed: Owed) -> Result<(), Fault>
    requires { at ≤ length s.now }
    ensures { result ≡ from ((within owed ++ outside) ++ (ws ∷ [])) s.now at }
{
    match owed {
        Owed::Next => next(s, at),
        Owed::Alone => alone(s, at),
        Owed::Listed => listed(s, at),
    }
}

// What the text is, from a place on at which so much is owed.
pub fn judged(s: &[u8], x: Place) -> Result<(), Fault>
    requires { place_in x ≤ length s.now }
    ensures { result ≡ from (owing x) s.now (place_in x) }
{
    match x {
        Place::Text => scan::scan(s),
        Place::Behind(at) => behind(s, at),
        Place::Inside { at, owed } => inside(s, at, owed),
    }
}

// In a text that is whole: is there a member of a statement at the place that no statement has?
fn blamed_inside(s: &[u8], at: usize, owed: Owed, run: &mut [u32]) -> bool
    requires { (from ((within owed ++ outside) ++ (ws ∷ [])) s.now at ≡ Ok tt) × ((at ≤ length s.now) × ((length s.now ≤ length run.old) × (length run.old ≤ run_numbers))) }
    ensures { (length run.new ≡ length run.old) × (result ≡ true → Blame owed s.now at) }
{
    match owed {
        Owed::Next => false,
        Owed::Alone | Owed::Listed => unfit::member_at(s, at, run),
    }
}

// The same of a place that is known only when the text is read.
pub fn blamed(s: &[u8], x: Place, run: &mut [u32]) -> bool
    requires { (from (owing x) s.now (place_in x) ≡ Ok tt) × ((place_in x ≤ length s.now) × ((length s.now ≤ length run.old) × (length run.old ≤ run_numbers))) }
    ensures { (length run.new ≡ length run.old) × (result ≡ true → BlameAt x s.now) }
{
    match x {
        Place::Text | Place::Behind(_) => false,
        Place::Inside { at, owed } => blamed_inside(s, at, owed, run),
    }
}
