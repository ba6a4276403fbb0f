// Strings judged and held in one walk.
ghost use Rattle.std.specs.Prelude.{◌≡◌, true, ◌+◌, ◌≤◌, length};
ghost use Rattle.chars.specs.Base.{At, part};
ghost use Rattle.syntax.specs.Members.{characters_of};
ghost use Rattle.syntax.specs.RecordLayout.{only_one};
ghost use Rattle.held.specs.Held.{held_text};
ghost use Rattle.parts.specs.Room.{Roomy};
ghost use Rattle.parts.specs.Holding.{Extends};
ghost use Rattle.straight.specs.Marks.{bare, all_bare};
ghost use Rattle.straight.specs.Taking.{Takes, Puts};

use crate::marks;
use parts::holding;
use parts::holding::Ended;
use text::quoted;

// Does a byte stand for itself in a string? Without branches, so that eight at once are tested as one.
fn plain(b: u8) -> bool
    ensures { result ≡ true → bare b ≡ true }
{
    (31 < b) & (b < 128) & (b != b'"') & (b != b'\\')
}

// Do the eight bytes from a place on?
fn plain_eight(s: &[u8], at: usize) -> bool
    requires { at + 8 ≤ length s.now }
    ensures { result ≡ true → all_bare (part s.now at (at + 8)) ≡ true }
{
    let mut all = true;
    for j in 0..8 {
        all = all & plain(s[at + j]);
    }
    all
}

// Eight bytes put as characters.
fn put_eight(s: &[u8], at: usize, run: &mut [u32], to: usize)
    requires { (at + 8 ≤ length s.now) × (to + 8 ≤ length run.old) }
    ensures { Extends run.old run.new to (part s.now at (at + 8)) (to + 8) }
{
    for j in 0..8 {
        run[to + j] = s[at + j] as u32;
    }
}

// Bytes that stand for themselves, put as characters eight by eight, as far as they and the run go: how many.
fn put_eights(s: &[u8], at: usize, run: &mut [u32], to: usize) -> usize
    requires { (at ≤ length s.now) × (to ≤ length run.old) }
    ensures { Puts s.now run.old run.new at to result }
{
    let mut n = 0;
    while 8 <= s.len() - at - n && 8 <= run.len() - to - n && plain_eight(s, at + n) {
        put_eight(s, at + n, run, to + n);
        n += 8;
    }
    n
}

// The same byte by byte at last.
fn put_plain(s: &[u8], at: usize, run: &mut [u32], to: usize) -> usize
    requires { (at ≤ length s.now) × (to ≤ length run.old) }
    ensures { Puts s.now run.old run.new at to result }
{
    let mut n = put_eights(s, at, run, to);
    while n < s.len() - at && n < run.len() - to && plain(s[at + n]) {
        run[to + n] = s[at + n] as u32;
        n += 1;
    }
    n
}

// A string behind whose opening quote anything may stand.
fn any_string(s: &[u8], v: usize, run: &mut [u32], at: usize) -> Option<Ended>
    requires { (At s.now v 34) × (Roomy run.old at 0) }
    ensures { Takes held_text characters_of 0 s.now run.old run.new v at result }
{
    let from = v + 1;
    let Ok(end) = quoted::string(s, from) else {
        return None;
    };
    if run.len() - at < end - v {
        return None;
    }
    let to = end - 1;
    let past = holding::hold_raw(&s[from..to], run, at)?;
    Some(Ended { past, end })
}

// The string at a place. ASCII that is no escape takes the short way.
pub fn string(s: &[u8], v: usize, run: &mut [u32], at: usize) -> Option<Ended>
    requires { Roomy run.old at 0 }
    ensures { Takes held_text characters_of 0 s.now run.old run.new v at result }
{
    if s.len() <= v || s[v] != b'"' || run.len() <= at {
        return None;
    }
    let from = v + 1;
    let first = at + 1;
    let n = put_plain(s, from, run, first);
    let e = from + n;
    if s.len() <= e {
        return None;
    }
    if s[e] != b'"' {
        return any_string(s, v, run, at);
    }
    run[at] = n as u32;
    Some(Ended {
        past: first + n,
        end: e + 1,
    })
}

// A list of one string.
pub fn sole(s: &[u8], v: usize, run: &mut [u32], at: usize) -> Option<Ended>
    requires { Roomy run.old at 0 }
    ensures { Takes held_text (only_one characters_of) 1 s.now run.old run.new v at result }
{
    let i = marks::opened(s, v, b'[')?;
    let h = string(s, i, run, at)?;
    let end = marks::closed(s, h.end, b']')?;
    Some(Ended { past: h.past, end })
}
