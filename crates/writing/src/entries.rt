// Entries of a held policy, and lists of them.
ghost use Rattle.std.specs.Prelude.{◌≡◌, ℕ, List};
ghost use Rattle.syntax.specs.Policy.{Value};
ghost use Rattle.held.specs.Held.{held_value, held_number, held_list};
ghost use Rattle.held.specs.Lying.{Lies, Lying};
ghost use Rattle.writing.specs.Showing.{Adds};
ghost use Rattle.writing.specs.Spelling.{form_of};
ghost use Rattle.writing.specs.Bytes.{entry_body, entry_bytes, list_bytes};
ghost use Rattle.writing.specs.WrittenForm.{digits_of};

use crate::sink::Sink;
use crate::spelling;
use crate::spelling::Form;
use held::{limits, places};

// The number that lies at a place.
fn put_number(run: &[u32], at: usize, sink: &mut Sink)
    requires { Lying held_number run.now at }
    ensures { (n : ℕ) → Lies run.now at (held_number n) → Adds (digits_of n) sink.old sink.new }
{
    spelling::put_digits(sink, 15, places::number_at(run, at));
}

// How the entries of a kind are put: kind 0 is of Action, 2 of Resource, and others are of the operator's number.
fn form_of(kind: u32) -> Form
    ensures { result ≡ form_of kind }
{
    match kind {
        0 => Form::Action,
        _ => Form::Entry { wild: kind == 2 },
    }
}

// The entry at a place, between its quotes.
fn put_body(kind: u32, run: &[u32], at: usize, sink: &mut Sink)
    requires { Lying held_value run.now at }
    ensures { (x : Value) → Lies run.now at (held_value x) → Adds (entry_body kind x) sink.old sink.new }
{
    let n = run[at];
    if n >= limits::MARK {
        put_number(run, at, sink);
        return;
    }
    let from = at + 1;
    let to = from + n as usize;
    spelling::put_symbols(sink, form_of(kind), &run[from..to]);
}

pub fn put_entry(kind: u32, run: &[u32], at: usize, sink: &mut Sink)
    requires { Lying held_value run.now at }
    ensures { (x : Value) → Lies run.now at (held_value x) → Adds (entry_bytes kind x) sink.old sink.new }
{
    sink.put(b'"');
    put_body(kind, run, at, sink);
    sink.put(b'"');
}

// The list at a place.
pub fn put_list(kind: u32, run: &[u32], at: usize, sink: &mut Sink)
    requires { Lying (held_list held_value) run.now at }
    ensures { (xs : List Value) → Lies run.now at (held_list held_value xs) → Adds (list_bytes kind xs) sink.old sink.new }
{
    let n = run[at] as usize;
    sink.put(b'[');
    let mut e = at + 1;
    for i in 0..n {
        sink.put_between(i);
        put_entry(kind, run, e, sink);
        e = places::past_value(run, e);
    }
    sink.put(b']');
}
