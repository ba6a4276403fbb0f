// A policy: Version and Statement, in either order.
ghost use Rattle.std.specs.Prelude.{◌≡◌, List, ℕ, ◌≤◌, ◌<◌, length};
ghost use Rattle.syntax.specs.Limits.{run_numbers};
ghost use Rattle.syntax.specs.Policy.{Statement};
ghost use Rattle.syntax.specs.Members.{has_like};
ghost use Rattle.syntax.specs.PolicyLayout.{same_sid};
ghost use Rattle.held.specs.Held.{held_each, held_statement};
ghost use Rattle.held.specs.Lying.{Lies, Lying, LyingMany, Placed, PlacedMany};
ghost use Rattle.parts.specs.Room.{Roomy};
ghost use Rattle.objects.specs.Leaving.{Closes, Ceases, Counts, Walks, Gets, Finds};

use crate::leaving::{Owed, Place};
use crate::statements;
use held::runs;
use parts::holding::{Ended, Listed};
use straight::marks;
use text::scan;

// More statements than a run has numbers are not counted.
const MOST: usize = 16384;

// The places of so many statements are kept.
const FEW: usize = 64;

// Has one of the n statements from a place on the Sid of the one at p? The places of the first ones are known.
fn repeats(run: &[u32], at: usize, places: [usize; 64], n: usize, p: usize) -> bool
    requires { (LyingMany held_statement run.now at n) × ((Lying held_statement run.now p) × (n < 64 → PlacedMany held_statement run.now places n)) }
    ensures { (e : ℕ) (xs : List Statement) (x : Statement) → n ≡ length xs → Lies run.now at (held_each held_statement xs) → (n < 64 → Placed held_statement run.now places n e xs) → Lies run.now p (held_statement x) → result ≡ has_like same_sid x xs }
{
    if n < FEW {
        return runs::has_sid_at(run, places, n, p);
    }
    runs::has_sid(run, at, n, p)
}

// The end of a list behind its last statement.
fn closed(s: &[u8], end: usize, past: usize, count: usize) -> Result<Listed, Place>
    requires { end ≤ length s.now }
    ensures { Closes s.now end past count result }
{
    match marks::closed(s, end, b']') {
        Some(end) => Ok(Listed { past, end, count }),
        None => Err(Place::Inside {
            at: end,
            owed: Owed::Next,
        }),
    }
}

// The statements of a list of at least one; no two have the same Sid.
fn listed(s: &[u8], v: usize, run: &mut [u32], at: usize) -> Result<Listed, Place>
    requires { Roomy run.old at 0 }
    ensures { Counts s.now run.old run.new v at result }
{
    let mut i = marks::opened(s, v, b'[').ok_or(Place::Text)?;
    let mut places = [0usize; FEW];
    let mut p = at;
    let mut n = 0usize;
    loop {
        let Ended { past, end } = match statements::statement(s, i, run, p) {
            Ok(h) => h,
            Err(x) => return Err(x.inside(Owed::Listed)),
        };
        if repeats(run, at, places, n, p) {
            return Err(Place::Inside {
                at: end,
                owed: Owed::Next,
            });
        }
        if n < FEW {
            places[n] = p;
        }
        p = past;
        n += 1;
        let Some(next) = marks::parted(s, end, b',') else {
            return closed(s, end, p, n);
        };
        i = next;
    }
}

// One statement that stands by itself, behind their number.
fn lone(s: &[u8], v: usize, run: &mut [u32]) -> Result<Ended, Place>
    requires { (0 < length run.old) × (length run.old ≤ run_numbers) }
    ensures { Walks s.now run.old run.new v result }
{
    match statements::statement(s, v, run, 1) {
        Ok(h) => {
            run[0] = 1;
            Ok(h)
        }
        Err(x) => Err(x.inside(Owed::Alone)),
    }
}

// One statement or a list of at least one, behind their number.
fn several(s: &[u8], v: usize, run: &mut [u32]) -> Result<Ended, Place>
    requires { length run.old ≤ run_numbers }
    ensures { Walks s.now run.old run.new v result }
{
    if run.len() == 0 || s.len() <= v {
        return Err(Place::Text);
    }
    if s[v] != b'[' {
        return lone(s, v, run);
    }
    let Listed { past, end, count } = listed(s, v, run, 1)?;
    if MOST < count {
        return Err(Place::Text);
    }
    run[0] = count as u32;
    Ok(Ended { past, end })
}

// The end of a policy at a place; where something else stands, it is given up behind the member that ends at `behind`.
fn ended(s: &[u8], behind: usize, at: usize, past: usize) -> Result<Ended, Place>
    requires { at ≤ length s.now }
    ensures { Ceases s.now behind at past result }
{
    let end = marks::closed(s, at, b'}').ok_or(Place::Behind(behind))?;
    Ok(Ended { past, end })
}

// The policy that an object is, Version first.
fn version_first(s: &[u8], v: usize, run: &mut [u32]) -> Result<Ended, Place>
    requires { length run.old ≤ run_numbers }
    ensures { Gets s.now run.old run.new v result }
{
    let a = marks::first(s, v, b"Version").ok_or(Place::Text)?;
    let i = marks::quote(s, a, b"2012-10-17").ok_or(Place::Text)?;
    let b = marks::next(s, i, b"Statement").ok_or(Place::Text)?;
    let Ended { past, end } = several(s, b, run)?;
    ended(s, end, end, past)
}

// The policy that an object is, Statement first.
fn statement_first(s: &[u8], v: usize, run: &mut [u32]) -> Result<Ended, Place>
    requires { length run.old ≤ run_numbers }
    ensures { Gets s.now run.old run.new v result }
{
    let b = marks::first(s, v, b"Statement").ok_or(Place::Text)?;
    let Ended { past, end } = several(s, b, run)?;
    let a = marks::next(s, end, b"Version").ok_or(Place::Behind(end))?;
    let i = marks::quote(s, a, b"2012-10-17").ok_or(Place::Behind(end))?;
    ended(s, end, i, past)
}

// The policy that an object is, told by its first name.
fn object(s: &[u8], v: usize, run: &mut [u32]) -> Result<Ended, Place>
    requires { length run.old ≤ run_numbers }
    ensures { Gets s.now run.old run.new v result }
{
    if marks::first(s, v, b"Version").is_some() {
        return version_first(s, v, run);
    }
    statement_first(s, v, run)
}

// The policy that a text is; or where it is given up.
pub fn policy(s: &[u8], run: &mut [u32]) -> Result<usize, Place>
    requires { length run.old ≤ run_numbers }
    ensures { Finds s.now run.old run.new result }
{
    let v = scan::space(s, 0);
    let Ended { past, end } = object(s, v, run)?;
    if scan::space(s, end) < s.len() {
        return Err(Place::Text);
    }
    Ok(past)
}
