// Strings of a text held as numbers in a lent run, one behind the other.
ghost use Rattle.std.specs.Prelude.{ℕ, ◌+◌, ◌≤◌, length};
ghost use Rattle.text.specs.Json.{Json};
ghost use Rattle.text.specs.Contents.{Stands};
ghost use Rattle.syntax.specs.Members.{characters, characters_of};
ghost use Rattle.syntax.specs.Limits.{greatest};
ghost use Rattle.held.specs.Held.{held_text, held_number};
ghost use Rattle.parts.specs.Room.{Roomy, Holdable};
ghost use Rattle.parts.specs.Holding.{Extends, Holds, HoldsTo};

use held::limits;
use text::walk::{Kind, Span};

// What was held ends before `past` in the run, and what says it before `end` in the text.
#[derive(Clone, Copy)]
pub struct Ended {
    pub past: usize,
    pub end: usize,
}

// So many things were held, up to `past`, of a list that ends before `end` in the text.
#[derive(Clone, Copy)]
pub struct Listed {
    pub past: usize,
    pub end: usize,
    pub count: usize,
}

// The characters that the bytes between two quotes say, behind their number: the place behind them.
pub fn hold_raw(raw: &[u8], run: &mut [u32], at: usize) -> Option<usize>
    requires { Roomy run.old at (1 + length raw.now) }
    ensures { Holds held_text run.old run.new at (characters raw.now) result }
{
    let first = at + 1;
    let last = run.len();
    let d = chars::strings::decode(raw, &mut run[first..last]);
    match d {
        Ok(n) => {
            run[at] = n as u32;
            Some(first + n)
        }
        Err(_) => None,
    }
}

// The string that stands at a place, and where it ends.
pub fn hold_string(s: &[u8], v: usize, run: &mut [u32], at: usize) -> Option<Ended>
    requires { Holdable s.now v run.old at 0 }
    ensures { (t : Json) (e : ℕ) → Stands s.now t v e → HoldsTo held_text run.old run.new at (characters_of t) e result }
{
    if text::walk::kind_at(s, v) != Kind::Text {
        return None;
    }
    let Span { from, to } = text::walk::quoted(s, v);
    let past = hold_raw(&s[from..to], run, at)?;
    Some(Ended { past, end: to + 1 })
}

// The string that stands at a place.
pub fn hold_text(s: &[u8], v: usize, run: &mut [u32], at: usize) -> Option<usize>
    requires { Holdable s.now v run.old at 0 }
    ensures { (t : Json) (e : ℕ) → Stands s.now t v e → Holds held_text run.old run.new at (characters_of t) result }
{
    let Ended { past, .. } = hold_string(s, v, run, at)?;
    Some(past)
}

// The number's two halves, the upper one marked; answers the place behind them.
pub fn put_number(run: &mut [u32], at: usize, n: u64) -> usize
    requires { (Roomy run.old at 2) × (n ≤ greatest) }
    ensures { Extends run.old run.new at (held_number n) result }
{
    let high = n / limits::HALF;
    let low = n % limits::HALF;
    run[at + 1] = low as u32;
    run[at] = limits::MARK + high as u32;
    at + 2
}
