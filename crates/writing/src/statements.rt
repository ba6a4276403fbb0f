// Statements of a held policy.
ghost use Rattle.syntax.specs.Policy.{Statement};
ghost use Rattle.held.specs.Held.{held_statement};
ghost use Rattle.held.specs.Lying.{Lies, Lying};
ghost use Rattle.held.specs.Places.{Labelled, held_labelled};
ghost use Rattle.writing.specs.Showing.{Adds};
ghost use Rattle.writing.specs.Bytes.{sid_bytes, effect_bytes, head_bytes, statement_bytes};

use crate::sink::Sink;
use crate::spelling::Form;
use crate::{entries, rows, spelling};
use held::{places, runs};

// The Sid of the statement at a place, if it has one.
fn put_sid(run: &[u32], p: usize, sink: &mut Sink)
    requires { Lying held_labelled run.now p }
    ensures { (x : Labelled) → Lies run.now p (held_labelled x) → Adds (sid_bytes x.label) sink.old sink.new }
{
    let n = run[p + 1] as usize;
    if n == 0 {
        return;
    }
    let from = p + 2;
    let to = from + n;
    sink.put_bytes(b"\"Sid\":\"");
    spelling::put_symbols(sink, Form::Text, &run[from..to]);
    sink.put_bytes(b"\",");
}

// An effect, by its number.
fn put_effect(sink: &mut Sink, effect: u32)
    ensures { Adds (effect_bytes effect) sink.old sink.new }
{
    match effect {
        1 => sink.put_bytes(b"\"Effect\":\"Allow\","),
        _ => sink.put_bytes(b"\"Effect\":\"Deny\","),
    }
}

// A statement's beginning, up to its actions.
pub fn put_head(run: &[u32], p: usize, sink: &mut Sink)
    requires { Lying held_statement run.now p }
    ensures { (x : Statement) → Lies run.now p (held_statement x) → Adds (head_bytes x) sink.old sink.new }
{
    sink.put(b'{');
    put_sid(run, p, sink);
    put_effect(sink, run[p]);
    sink.put_bytes(b"\"Action\":");
}

pub fn put_statement(run: &[u32], p: usize, sink: &mut Sink)
    requires { Lying held_statement run.now p }
    ensures { (x : Statement) → Lies run.now p (held_statement x) → Adds (statement_bytes x) sink.old sink.new }
{
    put_head(run, p, sink);
    let a = places::behind_label(run, p);
    entries::put_list(0, run, a, sink);
    sink.put_bytes(b",\"Resource\":");
    let b = runs::list(run, a).past;
    entries::put_list(2, run, b, sink);
    let c = runs::list(run, b).past;
    rows::put_condition(run, c, sink);
    sink.put(b'}');
}
