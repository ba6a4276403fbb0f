// Condition rows of a held policy, by their operators.
ghost use Rattle.std.specs.Prelude.{List};
ghost use Rattle.chars.specs.Written.{written_text};
ghost use Rattle.syntax.specs.Policy.{Row};
ghost use Rattle.held.specs.Held.{held_row, held_list};
ghost use Rattle.held.specs.Lying.{Lies, Lying};
ghost use Rattle.writing.specs.Showing.{Adds};
ghost use Rattle.writing.specs.Bytes.{name, operator_name, ending, turning, row_bytes, rows_from, condition_bytes};

use crate::sink::Sink;
use crate::spelling::Form;
use crate::{entries, spelling};
use held::{places, runs};

// The name of an operator, by its number.
fn put_operator(sink: &mut Sink, operator: u32)
    ensures { Adds (operator_name operator) sink.old sink.new }
{
    match operator {
        1 => sink.put_bytes(b"StringEquals"),
        2 => sink.put_bytes(b"StringLike"),
        _ => sink.put_bytes(b"NumericLessThanEquals"),
    }
}

// The end of the rows of the last operator, 0 where there was none.
fn put_ending(sink: &mut Sink, last: u32)
    ensures { Adds (ending last) sink.old sink.new }
{
    if last != 0 {
        sink.put_bytes(b"},");
    }
}

// What stands before a row: a comma where the last one has the same operator, else that one's end and the new name.
pub fn put_turning(sink: &mut Sink, last: u32, operator: u32)
    ensures { Adds (turning last operator) sink.old sink.new }
{
    if last == operator {
        sink.put(b',');
        return;
    }
    put_ending(sink, last);
    sink.put(b'"');
    put_operator(sink, operator);
    sink.put_bytes(b"\":{");
}

// The key of the row at a place, as a member's name.
pub fn put_key(run: &[u32], p: usize, sink: &mut Sink)
    requires { Lying held_row run.now p }
    ensures { (x : Row) → Lies run.now p (held_row x) → Adds (name (written_text x.key)) sink.old sink.new }
{
    let n = run[p + 1] as usize;
    let from = p + 2;
    let to = from + n;
    sink.put(b'"');
    spelling::put_symbols(sink, Form::Text, &run[from..to]);
    sink.put_bytes(b"\":");
}

fn put_row(run: &[u32], p: usize, sink: &mut Sink)
    requires { Lying held_row run.now p }
    ensures { (x : Row) → Lies run.now p (held_row x) → Adds (row_bytes x) sink.old sink.new }
{
    put_key(run, p, sink);
    entries::put_list(run[p], run, places::behind_label(run, p), sink);
}

// The rows of the list at a place, without what ends the last.
fn put_rows(run: &[u32], at: usize, sink: &mut Sink)
    requires { Lying (held_list held_row) run.now at }
    ensures { (xs : List Row) → Lies run.now at (held_list held_row xs) → Adds (rows_from 0 xs) sink.old sink.new }
{
    let n = run[at] as usize;
    let mut last = 0u32;
    let mut p = at + 1;
    for _ in 0..n {
        put_turning(sink, last, run[p]);
        put_row(run, p, sink);
        last = run[p];
        p = runs::row(run, p).past;
    }
}

// The member of a statement that has rows.
pub fn put_condition(run: &[u32], at: usize, sink: &mut Sink)
    requires { Lying (held_list held_row) run.now at }
    ensures { (xs : List Row) → Lies run.now at (held_list held_row xs) → Adds (condition_bytes xs) sink.old sink.new }
{
    if run[at] == 0 {
        return;
    }
    sink.put_bytes(b",\"Condition\":{");
    put_rows(run, at, sink);
    sink.put_bytes(b"}}");
}
