// The characters of an entry, and the digits of a number.
ghost use Rattle.std.specs.Prelude.{◌≡◌, ◌+◌, ◌%◌};
ghost use Rattle.chars.specs.Written.{written_text};
ghost use Rattle.writing.specs.WrittenForm.{bare, is_escaped, spelling, digits_up_to};
ghost use Rattle.writing.specs.Showing.{Adds};
ghost use Rattle.writing.specs.Spelling.{piece, pieces};

use crate::plain;
use crate::sink::Sink;
use syntax::forms;

// How the symbols of a string are put: a text's characters as they are; an action's wildcards as * and ?; or an entry's
// too, and escaped what is to stand for itself, * and ? among it where they may be wildcards.
#[derive(Clone, Copy)]
pub enum Form {
    Text,
    Action,
    Entry { wild: bool },
}

// A wildcard as * or ?, a character as itself.
fn bare(y: u32) -> u32
    ensures { result ≡ bare y }
{
    match y {
        forms::STAR => plain::STAR,
        forms::ANY => plain::ANY,
        _ => y,
    }
}

// Is it `$`, or, where they may be wildcards, `*` or `?`?
fn is_escaped(wild: bool, y: u32) -> bool
    ensures { result ≡ is_escaped wild y }
{
    y == plain::DOLLAR || wild && (y == plain::STAR || y == plain::ANY)
}

fn put_spelled(sink: &mut Sink, wild: bool, y: u32)
    ensures { Adds (written_text (spelling wild y)) sink.old sink.new }
{
    if !is_escaped(wild, y) {
        sink.put_char(bare(y));
        return;
    }
    sink.put_bytes(b"${");
    sink.put_char(y);
    sink.put(b'}');
}

fn put_symbol(sink: &mut Sink, form: Form, y: u32)
    ensures { Adds (piece form y) sink.old sink.new }
{
    match form {
        Form::Text => sink.put_char(y),
        Form::Action => sink.put_char(bare(y)),
        Form::Entry { wild } => put_spelled(sink, wild, y),
    }
}

// The symbols of a string: those that are plain together, and each other one by itself. None once it was too much.
pub fn put_symbols(sink: &mut Sink, form: Form, ys: &[u32])
    ensures { Adds (pieces form ys.now) sink.old sink.new }
{
    if sink.is_over() {
        return;
    }
    let mut i = 0usize;
    while i < ys.len() {
        i += sink.put_plain(&ys[i..]);
        if i == ys.len() {
            return;
        }
        put_symbol(sink, form, ys[i]);
        i += 1;
    }
}

fn digit(n: u64) -> u8
    ensures { result ≡ 48 + n % 10 }
{
    b'0' + (n % 10) as u8
}

// A number's digits, at most k besides the last.
pub fn put_digits(sink: &mut Sink, k: u32, n: u64)
    ensures { Adds (digits_up_to k n) sink.old sink.new }
{
    if k != 0 && n >= 10 {
        put_digits(sink, k - 1, n / 10);
    }
    sink.put(digit(n));
}
