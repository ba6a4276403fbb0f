// The refined policy, written out: each Allow entry as what its row holds. A room's rows are counted from 0, in the
// order of the entries.
ghost use Rattle.std.specs.Prelude.{◌≡◌, List, [], ◌∷◌, ◌++◌, ◌+◌, ◌*◌, ◌≤◌, ◌<◌, length};
ghost use Rattle.syntax.specs.Limits.{run_numbers};
ghost use Rattle.syntax.specs.Policy.{Value, Row, Statement, Policy, text, number, star};
ghost use Rattle.held.specs.Held.{held_value, held_list, held_row, held_statement, held};
ghost use Rattle.held.specs.Lying.{Lies};
ghost use Rattle.writing.specs.Showing.{Adds};
ghost use Rattle.writing.specs.Bytes.{entry_bytes, list_bytes, row_bytes, rows_from, condition_bytes, statement_bytes};
ghost use Rattle.writing.specs.WrittenForm.{written_policy};
ghost use Rattle.candidates.specs.Entries.{refined};
ghost use Rattle.candidates.specs.Rows.{row_numbers, text_row, content_of};
ghost use Rattle.refined.specs.Finishing.{kept, kept_by, has_some, kept_rows, all_some, kept_statement, is_whole};
ghost use Rattle.refined.specs.Finishing.{left_by};
ghost use Rattle.refined.specs.Finishing.{refined_policy, has_allow};
ghost use Rattle.refined.specs.Keeping.{from, WritPolicy, Ranged, Kept, KeptEntry, HeldEntry, Begun, Bounded};
ghost use Rattle.refined.specs.Keeping.{KeptStatement, KeptPolicy, Reaches, entries_of, row_entries_of, row_values};
ghost use Rattle.refined.specs.Keeping.{statement_values, policy_values, kept_row, left, is_left};

use candidates::rows;
use held::{limits, places, runs};
use syntax::forms;
use writing::sink::Sink;
use writing::{entries, statements};

// A row that holds a beginning, as one that holds the beginning and its star as a text.
fn put_star(row: &[u32], held: &mut [u32])
    requires { (Begun row.now) × (length held.old ≡ row_numbers) }
    ensures { (y : Begun row.now) → held.new ≡ text_row 2 (y.text ++ (star ∷ [])) }
{
    let n = row[1];
    let to = n as usize + 2;
    rows::put_text(held, rows::SINGLE, &row[2..to]);
    held[to] = forms::STAR;
    held[1] = n + 1;
}

// The beginning that a row holds, and its star.
fn put_beginning(kind: u32, row: &[u32], sink: &mut Sink)
    requires { Begun row.now }
    ensures { (y : Begun row.now) → Adds (entry_bytes kind (text (y.text ++ (star ∷ [])))) sink.old sink.new }
{
    let mut held = [0u32; rows::NUMBERS];
    put_star(row, &mut held);
    entries::put_entry(kind, &held, 1, sink);
}

// The number that a row holds.
fn put_bound(kind: u32, row: &[u32], sink: &mut Sink)
    requires { Bounded row.now }
    ensures { (y : Bounded row.now) → Adds (entry_bytes kind (number y.number)) sink.old sink.new }
{
    let mut held = [0u32; 2];
    held[0] = limits::MARK + row[1];
    held[1] = row[2];
    entries::put_entry(kind, &held, 0, sink);
}

// The entry at a place, as what its row holds.
fn put_kept(kind: u32, run: &[u32], e: usize, row: &[u32], sink: &mut Sink)
    requires { HeldEntry run.now e row.now }
    ensures { (y : HeldEntry run.now e row.now) → Adds (entry_bytes kind (refined y.entry y.candidate)) sink.old sink.new }
{
    match row[0] {
        rows::ITSELF => entries::put_entry(kind, run, e, sink),
        rows::SINGLE => entries::put_entry(kind, row, 1, sink),
        rows::BEGINNING => put_beginning(kind, row, sink),
        _ => put_bound(kind, row, sink),
    }
}

// The entry at a place behind k others, if its row holds something: how many they are then.
fn put_next(kind: u32, run: &[u32], e: usize, row: &[u32], sink: &mut Sink, k: usize) -> usize
    requires { (KeptEntry run.now e row.now) × (k < run_numbers) }
    ensures { (y : KeptEntry run.now e row.now) → Reaches (entry_bytes kind) (kept_by (content_of row.now) y.entry []) k result sink.old sink.new }
{
    if row[0] == rows::EMPTY {
        return k;
    }
    sink.put_between(k);
    put_kept(kind, run, e, row, sink);
    k + 1
}

// The entries of the list at a place whose rows hold something, the first one's being row s.
fn put_kept_list(kind: u32, run: &[u32], at: usize, room: &[u32], s: usize, sink: &mut Sink)
    requires { Kept (held_list held_value) entries_of run.now at room.now s }
    ensures { (y : Kept (held_list held_value) entries_of run.now at room.now s) → Adds (list_bytes kind (kept y.thing (from room.now s))) sink.old sink.new }
{
    let n = run[at] as usize;
    sink.put(b'[');
    let mut e = at + 1;
    let mut j = s;
    let mut k = 0usize;
    for i in 0..n {
        let a = j * rows::NUMBERS;
        let to = a + rows::NUMBERS;
        k = put_next(kind, run, e, &room[a..to], sink, k);
        e = places::past_value(run, e);
        j += 1;
    }
    sink.put(b']');
}

fn put_kept_row(run: &[u32], p: usize, room: &[u32], s: usize, sink: &mut Sink)
    requires { Kept held_row row_entries_of run.now p room.now s }
    ensures { (y : Kept held_row row_entries_of run.now p room.now s) → Adds (row_bytes (kept_row y.thing (from room.now s))) sink.old sink.new }
{
    writing::rows::put_key(run, p, sink);
    let at = places::behind_label(run, p);
    put_kept_list(run[p], run, at, room, s, sink);
}

// The rows of the list at a place, without what ends the last.
fn put_kept_rows(run: &[u32], at: usize, room: &[u32], s: usize, sink: &mut Sink)
    requires { Kept (held_list held_row) row_values run.now at room.now s }
    ensures { (y : Kept (held_list held_row) row_values run.now at room.now s) → Adds (rows_from 0 (kept_rows y.thing (from room.now s))) sink.old sink.new }
{
    let n = run[at] as usize;
    let mut last = 0u32;
    let mut p = at + 1;
    let mut a = s;
    for i in 0..n {
        writing::rows::put_turning(sink, last, run[p]);
        put_kept_row(run, p, room, a, sink);
        last = run[p];
        let r = runs::row(run, p);
        p = r.past;
        a += r.entries;
    }
}

fn put_kept_condition(run: &[u32], at: usize, room: &[u32], s: usize, sink: &mut Sink)
    requires { Kept (held_list held_row) row_values run.now at room.now s }
    ensures { (y : Kept (held_list held_row) row_values run.now at room.now s) → Adds (condition_bytes (kept_rows y.thing (from room.now s))) sink.old sink.new }
{
    if run[at] == 0 {
        return;
    }
    sink.put_bytes(b",\"Condition\":{");
    put_kept_rows(run, at, room, s, sink);
    sink.put_bytes(b"}}");
}

fn put_kept_statement(run: &[u32], p: usize, room: &[u32], s: usize, sink: &mut Sink)
    requires { Kept held_statement statement_values run.now p room.now s }
    ensures { (y : Kept held_statement statement_values run.now p room.now s) → Adds (statement_bytes (kept_statement y.thing (from room.now s))) sink.old sink.new }
{
    statements::put_head(run, p, sink);
    let a = places::behind_label(run, p);
    put_kept_list(0, run, a, room, s, sink);
    sink.put_bytes(b",\"Resource\":");
    let l = runs::list(run, a);
    let t = s + l.entries;
    put_kept_list(2, run, l.past, room, t, sink);
    let m = runs::list(run, l.past);
    put_kept_condition(run, m.past, room, t + m.entries, sink);
    sink.put(b'}');
}

// Holds one of n rows something, from row s on?
fn has_some(room: &[u32], s: usize, n: usize) -> bool
    requires { row_numbers * (s + n) ≤ length room.now }
    ensures { (xs : List Value) → n ≡ length xs → result ≡ has_some (kept xs (from room.now s)) }
{
    let mut j = s;
    for i in 0..n {
        if room[j * rows::NUMBERS] != rows::EMPTY {
            return true;
        }
        j += 1;
    }
    false
}

// Has every condition row of the list at a place an entry left?
fn rows_some(run: &[u32], at: usize, room: &[u32], s: usize) -> bool
    requires { Ranged (held_list held_row) row_values run.now at room.now s }
    ensures { (xs : List Row) → Lies run.now at (held_list held_row xs) → result ≡ all_some (kept_rows xs (from room.now s)) }
{
    let n = run[at] as usize;
    let mut p = at + 1;
    let mut a = s;
    for i in 0..n {
        let r = runs::row(run, p);
        if !has_some(room, a, r.entries) {
            return false;
        }
        p = r.past;
        a += r.entries;
    }
    true
}

// Has every list of the statement at a place an entry left?
fn is_whole(run: &[u32], p: usize, room: &[u32], s: usize) -> bool
    requires { Ranged held_statement statement_values run.now p room.now s }
    ensures { (x : Statement) → Lies run.now p (held_statement x) → result ≡ is_whole (kept_statement x (from room.now s)) }
{
    let l = runs::list(run, places::behind_label(run, p));
    if !has_some(room, s, l.entries) {
        return false;
    }
    let t = s + l.entries;
    let m = runs::list(run, l.past);
    if !has_some(room, t, m.entries) {
        return false;
    }
    rows_some(run, m.past, room, t + m.entries)
}

// Is the statement at a place written?
fn is_left(run: &[u32], p: usize, room: &[u32], s: usize) -> bool
    requires { Ranged held_statement statement_values run.now p room.now s }
    ensures { (x : Statement) → Lies run.now p (held_statement x) → result ≡ is_left x (from room.now s) }
{
    run[p] != 1 || is_whole(run, p, room, s)
}

// The statement at a place: refined, or a Deny whole.
fn put_left(run: &[u32], p: usize, room: &[u32], s: usize, sink: &mut Sink)
    requires { KeptStatement run.now p room.now s }
    ensures { (y : KeptStatement run.now p room.now s) → Adds (statement_bytes (left y.thing (from room.now s))) sink.old sink.new }
{
    if run[p] != 1 {
        return statements::put_statement(run, p, sink);
    }
    put_kept_statement(run, p, room, s, sink);
}

// The statement at a place behind k others, if it is written: how many they are then.
fn put_next_left(run: &[u32], p: usize, room: &[u32], s: usize, sink: &mut Sink, k: usize) -> usize
    requires { (KeptStatement run.now p room.now s) × (k < run_numbers) }
    ensures { (y : KeptStatement run.now p room.now s) → Reaches statement_bytes (left_by y.thing (from room.now s) []) k result sink.old sink.new }
{
    if !is_left(run, p, room, s) {
        return k;
    }
    sink.put_between(k);
    put_left(run, p, room, s, sink);
    k + 1
}

// Is the statement at a place an Allow that is written?
fn is_allowed(run: &[u32], p: usize, room: &[u32], s: usize) -> bool
    requires { Ranged held_statement statement_values run.now p room.now s }
    ensures { (x : Statement) → Lies run.now p (held_statement x) → result ≡ has_allow (left_by x (from room.now s) []) }
{
    run[p] == 1 && is_whole(run, p, room, s)
}

// Is an Allow statement written?
pub fn some_allowed(run: &[u32], room: &[u32]) -> bool
    requires { Ranged held policy_values run.now 0 room.now 0 }
    ensures { (p : Policy) → Lies run.now 0 (held p) → result ≡ has_allow (refined_policy p room.now) }
{
    let n = run[0] as usize;
    let mut p = 1usize;
    let mut s = 0usize;
    for i in 0..n {
        if is_allowed(run, p, room, s) {
            return true;
        }
        let q = runs::statement(run, p);
        p = q.past;
        s += q.entries;
    }
    false
}

// The refined policy.
pub fn put_refined(run: &[u32], room: &[u32], sink: &mut Sink)
    requires { KeptPolicy run.now room.now }
    ensures { (p : Policy) → Lies run.now 0 (held p) → WritPolicy p room.now → Adds (written_policy (refined_policy p room.now)) sink.old sink.new }
{
    let n = run[0] as usize;
    sink.put_bytes(b"{\"Version\":\"2012-10-17\",\"Statement\":[");
    let mut p = 1usize;
    let mut s = 0usize;
    let mut k = 0usize;
    for i in 0..n {
        k = put_next_left(run, p, room, s, sink, k);
        let q = runs::statement(run, p);
        p = q.past;
        s += q.entries;
    }
    sink.put_bytes(b"]}");
}
