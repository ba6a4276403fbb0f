// Walks over a held policy: where its parts end, how many entries they have, whether a limit is passed.
ghost use Rattle.std.specs.Prelude.{◌≡◌, false, ◌||◌, ◌+◌, ◌≤◌, List, ℕ, length};
ghost use Rattle.syntax.specs.Policy.{Value, Row, Statement, Policy};
ghost use Rattle.syntax.specs.Members.{has_like};
ghost use Rattle.syntax.specs.PolicyLayout.{same_row, same_sid};
ghost use Rattle.held.specs.Held.{held_each, held_list, held_value, held_row, held_statement, held};
ghost use Rattle.held.specs.Held.{any_of, long_value, row_over, row_entries, rows_over};
ghost use Rattle.held.specs.Held.{statement_over, statement_entries, over_limit};
ghost use Rattle.held.specs.Lying.{Lies, Lying, LyingMany, Placed, PlacedMany, Passes};

use crate::limits;
use syntax::forms;

// The place behind what was walked over, its entries, and whether one of its limits is passed.
#[derive(Clone, Copy)]
pub struct Seen {
    pub past: usize,
    pub entries: usize,
    pub over: bool,
}

impl Seen {
    // Nothing is seen before a place.
    fn before(past: usize) -> Seen
        ensures { result ≡ record { past = past; entries = 0; over = false } }
    {
        Seen {
            past,
            entries: 0,
            over: false,
        }
    }

    // What was seen, and what was seen next.
    fn then(self, next: Seen) -> Seen
        requires { self.entries + next.entries ≤ usize.MAX }
        ensures { result ≡ record { past = next.past; entries = self.entries + next.entries; over = self.over || next.over } }
    {
        Seen {
            past: next.past,
            entries: self.entries + next.entries,
            over: self.over | next.over,
        }
    }
}

fn value(run: &[u32], at: usize) -> Seen
    requires { Lying held_value run.now at }
    ensures { (x : Value) → Lies run.now at (held_value x) → Passes at (held_value x) 1 (long_value x) result }
{
    let n = run[at];
    if n >= limits::MARK {
        return Seen {
            past: at + 2,
            entries: 1,
            over: false,
        };
    }
    Seen {
        past: at + 1 + n as usize,
        entries: 1,
        over: n as usize > limits::ENTRY,
    }
}

fn values(run: &[u32], at: usize, n: usize) -> Seen
    requires { LyingMany held_value run.now at n }
    ensures { (xs : List Value) → n ≡ length xs → Lies run.now at (held_each held_value xs) → Passes at (held_each held_value xs) (length xs) (any_of long_value xs) result }
{
    let mut seen = Seen::before(at);
    for _ in 0..n {
        seen = seen.then(value(run, seen.past));
    }
    seen
}

// A list behind its number.
pub fn list(run: &[u32], at: usize) -> Seen
    requires { Lying (held_list held_value) run.now at }
    ensures { (xs : List Value) → Lies run.now at (held_list held_value xs) → Passes at (held_list held_value xs) (length xs) (any_of long_value xs) result }
{
    let n = run[at] as usize;
    values(run, at + 1, n)
}

pub fn row(run: &[u32], at: usize) -> Seen
    requires { Lying held_row run.now at }
    ensures { (x : Row) → Lies run.now at (held_row x) → Passes at (held_row x) (length x.entries) (row_over x) result }
{
    let n = run[at + 1] as usize;
    let l = list(run, at + 2 + n);
    Seen {
        over: (n > limits::KEY) | l.over,
        ..l
    }
}

fn rows_from(run: &[u32], at: usize, n: usize) -> Seen
    requires { LyingMany held_row run.now at n }
    ensures { (xs : List Row) → n ≡ length xs → Lies run.now at (held_each held_row xs) → Passes at (held_each held_row xs) (row_entries xs) (any_of row_over xs) result }
{
    let mut seen = Seen::before(at);
    for _ in 0..n {
        seen = seen.then(row(run, seen.past));
    }
    seen
}

pub fn rows(run: &[u32], at: usize) -> Seen
    requires { Lying (held_list held_row) run.now at }
    ensures { (xs : List Row) → Lies run.now at (held_list held_row xs) → Passes at (held_list held_row xs) (row_entries xs) (rows_over xs) result }
{
    let n = run[at] as usize;
    let l = rows_from(run, at + 1, n);
    Seen {
        over: (n > limits::ROWS) | l.over,
        ..l
    }
}

pub fn statement(run: &[u32], at: usize) -> Seen
    requires { Lying held_statement run.now at }
    ensures { (x : Statement) → Lies run.now at (held_statement x) → Passes at (held_statement x) (statement_entries x) (statement_over x) result }
{
    let n = run[at + 1];
    let a = list(run, at + 2 + n as usize);
    let b = list(run, a.past);
    let c = rows(run, b.past);
    Seen {
        past: c.past,
        entries: a.entries + b.entries + c.entries,
        over: c.over | (a.over | b.over),
    }
}

// Is the policy over a limit?
pub fn over_limit(run: &[u32]) -> bool
    requires { Lying held run.now 0 }
    ensures { (p : Policy) → Lies run.now 0 (held p) → result ≡ over_limit p }
{
    let n = run[0] as usize;
    let mut seen = Seen::before(1);
    for _ in 0..n {
        seen = seen.then(statement(run, seen.past));
    }
    (n > limits::STATEMENTS) | ((seen.entries > limits::ENTRIES) | seen.over)
}

// Have the rows at two places the same key?
fn same_key_at(run: &[u32], p: usize, q: usize) -> bool
    requires { (Lying held_row run.now p) × (Lying held_row run.now q) }
    ensures { (x y : Row) → Lies run.now p (held_row x) → Lies run.now q (held_row y) → result ≡ same_row x y }
{
    let from = p + 2;
    let to = from + run[p + 1] as usize;
    let a = q + 2;
    let b = a + run[q + 1] as usize;
    forms::same_key(&run[from..to], &run[a..b])
}

// Have the statements at two places the same Sid?
fn same_sid_at(run: &[u32], p: usize, q: usize) -> bool
    requires { (Lying held_statement run.now p) × (Lying held_statement run.now q) }
    ensures { (x y : Statement) → Lies run.now p (held_statement x) → Lies run.now q (held_statement y) → result ≡ same_sid x y }
{
    let from = p + 2;
    let to = from + run[p + 1] as usize;
    if from == to {
        return false;
    }
    let a = q + 2;
    let b = a + run[q + 1] as usize;
    forms::same_text(&run[from..to], &run[a..b])
}

// Has one of the n rows from a place on the key of the row at p?
pub fn has_key(run: &[u32], at: usize, n: usize, p: usize) -> bool
    requires { (LyingMany held_row run.now at n) × (Lying held_row run.now p) }
    ensures { (xs : List Row) (x : Row) → n ≡ length xs → Lies run.now at (held_each held_row xs) → Lies run.now p (held_row x) → result ≡ has_like same_row x xs }
{
    let mut q = at;
    for _ in 0..n {
        if same_key_at(run, p, q) {
            return true;
        }
        q = row(run, q).past;
    }
    false
}

// Has one of the n statements from a place on the Sid of the statement at p?
pub fn has_sid(run: &[u32], at: usize, n: usize, p: usize) -> bool
    requires { (LyingMany held_statement run.now at n) × (Lying held_statement run.now p) }
    ensures { (xs : List Statement) (x : Statement) → n ≡ length xs → Lies run.now at (held_each held_statement xs) → Lies run.now p (held_statement x) → result ≡ has_like same_sid x xs }
{
    let mut q = at;
    for _ in 0..n {
        if same_sid_at(run, p, q) {
            return true;
        }
        q = statement(run, q).past;
    }
    false
}

// Has one of the n statements at the places the Sid of the statement at p?
pub fn has_sid_at(run: &[u32], places: [usize; 64], n: usize, p: usize) -> bool
    requires { (PlacedMany held_statement run.now places n) × (Lying held_statement run.now p) }
    ensures { (e : ℕ) (xs : List Statement) (x : Statement) → Placed held_statement run.now places n e xs → Lies run.now p (held_statement x) → result ≡ has_like same_sid x xs }
{
    for i in 0..n {
        if same_sid_at(run, p, places[i]) {
            return true;
        }
    }
    false
}
