// The scan: is a text JSON (RFC 8259, in UTF-8) of at most sixteen levels, and if not, where does it break?
// Each function promises what the reader of specs/Machine.antt does with the items that it reads.
ghost use Rattle.std.specs.Prelude.{[], ◌∷◌, map, ◌≡◌, ◌≤◌, length};
ghost use Rattle.text.specs.Machine.{ws, byte, text, value, before, close, from, verdict};
ghost use Rattle.text.specs.Reading.{Done, Goes, Begins, Opens, Follows};

use crate::fault::Fault;
use crate::quick::Reach;
use crate::{numbers, quick, quoted, white};

// Levels that a text may open.
pub const LEVELS: usize = 16;

// What holds inner values.
#[derive(Clone, Copy, PartialEq, Eq)]
pub enum Shape {
    List,
    Object,
}

// How a value begins: it holds no inner value and ends at this place, or its first inner value stands at a place.
#[derive(Clone, Copy)]
pub enum Begun {
    Ends(usize),
    Inner { at: usize, shape: Shape },
}

// What follows an inner value: another, which stands at this place; or the end, past this place.
#[derive(Clone, Copy)]
pub enum Next {
    Inner(usize),
    Closed(usize),
}

// Past white space. Behind its first byte there are often many spaces.
pub fn space(s: &[u8], at: usize) -> usize
    requires { at ≤ length s.now }
    ensures { Done s.now (ws ∷ []) at result }
{
    if s.len() <= at {
        return at;
    }
    if !white::blank(s[at]) {
        return at;
    }
    let mut i = white::spaces(s, at + 1);
    while i < s.len() {
        if !white::blank(s[i]) {
            return i;
        }
        i += 1;
    }
    i
}

// The byte x.
fn byte(s: &[u8], at: usize, x: u8) -> Result<usize, Fault>
    requires { at ≤ length s.now }
    ensures { Goes s.now (byte x ∷ []) at result }
{
    match s.get(at) {
        Some(&b) if b == x => Ok(at + 1),
        _ => Err(Fault::Breaks(at)),
    }
}

// The bytes of w.
fn word(s: &[u8], at: usize, w: &[u8]) -> Result<usize, Fault>
    requires { at ≤ length s.now }
    ensures { Goes s.now (map byte w.now) at result }
{
    let mut i = at;
    for &x in w {
        i = byte(s, i, x)?;
    }
    Ok(i)
}

// A member's name in quotes and its colon, up to its value.
#[inline(always)]
pub fn name(s: &[u8], at: usize) -> Result<usize, Fault>
    requires { at ≤ length s.now }
    ensures { Goes s.now (before Shape.Object) at result }
{
    let n = byte(s, at, b'"')?;
    let e = quoted::string(s, n)?;
    let c = byte(s, space(s, e), b':')?;
    Ok(space(s, c))
}

// The byte that closes a list or an object.
fn closer(shape: Shape) -> u8
    ensures { result ≡ close shape }
{
    match shape {
        Shape::List => b']',
        Shape::Object => b'}',
    }
}

// What stands before an inner value: in a list nothing, in an object a member's name and a colon.
pub fn heading(s: &[u8], at: usize, shape: Shape) -> Result<usize, Fault>
    requires { at ≤ length s.now }
    ensures { Goes s.now (before shape) at result }
{
    match shape {
        Shape::List => Ok(at),
        Shape::Object => name(s, at),
    }
}

// Behind an opening bracket or brace.
fn opened(s: &[u8], at: usize, shape: Shape) -> Result<Begun, Fault>
    requires { at ≤ length s.now }
    ensures { Opens s.now shape at result }
{
    let i = space(s, at);
    if s.len() <= i {
        return Err(Fault::Breaks(i));
    }
    if s[i] == closer(shape) {
        return Ok(Begun::Ends(i + 1));
    }
    let first = heading(s, i, shape)?;
    Ok(Begun::Inner {
        at: first,
        shape: shape,
    })
}

// How the value at a place begins, where at most so many levels may be opened.
fn begin(s: &[u8], at: usize, left: usize) -> Result<Begun, Fault>
    requires { at ≤ length s.now }
    ensures { Begins s.now left at result }
{
    if s.len() <= at {
        return Err(Fault::Breaks(at));
    }
    let b = s[at];
    let i = at + 1;
    match b {
        b'"' => quoted::string(s, i).map(Begun::Ends),
        b'-' => numbers::unsigned(s, i).map(Begun::Ends),
        b'0'..=b'9' => numbers::unsigned(s, at).map(Begun::Ends),
        b'[' => {
            if left == 0 {
                return Err(Fault::Deep);
            }
            opened(s, i, Shape::List)
        }
        b'f' => word(s, i, b"alse").map(Begun::Ends),
        b'n' => word(s, i, b"ull").map(Begun::Ends),
        b't' => word(s, i, b"rue").map(Begun::Ends),
        b'{' => {
            if left == 0 {
                return Err(Fault::Deep);
            }
            opened(s, i, Shape::Object)
        }
        _ => Err(Fault::Breaks(at)),
    }
}

// What follows an inner value that ends at a place.
pub fn follow(s: &[u8], at: usize, shape: Shape) -> Result<Next, Fault>
    requires { at ≤ length s.now }
    ensures { Follows s.now shape at result }
{
    let i = space(s, at);
    if s.len() <= i {
        return Err(Fault::Breaks(i));
    }
    let b = s[i];
    if b == closer(shape) {
        return Ok(Next::Closed(i + 1));
    }
    if b != b',' {
        return Err(Fault::Breaks(i));
    }
    let j = space(s, i + 1);
    let inner = heading(s, j, shape)?;
    Ok(Next::Inner(inner))
}

// How the value at a place begins: what the quick way read of a list or an object up to a comma is gone on with
// behind it.
fn entered(s: &[u8], at: usize, left: usize) -> Result<Begun, Fault>
    requires { at ≤ length s.now }
    ensures { Begins s.now left at result }
{
    match quick::front(s, at, left) {
        None => begin(s, at, left),
        Some(Reach::Ends(e)) => Ok(Begun::Ends(e)),
        Some(Reach::More { at: e, shape }) => {
            let inner = heading(s, space(s, e), shape)?;
            Ok(Begun::Inner {
                at: inner,
                shape: shape,
            })
        }
    }
}

// The value at a place, where at most so many levels may be opened.
pub fn value(s: &[u8], at: usize, left: usize) -> Result<usize, Fault>
    requires { at ≤ length s.now }
    ensures { Goes s.now (value left ∷ []) at result }
{
    match entered(s, at, left)? {
        Begun::Ends(e) => Ok(e),
        Begun::Inner { at: first, shape } => {
            let mut i = first;
            loop {
                let n = value(s, i, left - 1)?;
                match follow(s, n, shape)? {
                    Next::Inner(m) => {
                        i = m;
                    }
                    Next::Closed(e) => {
                        return Ok(e);
                    }
                }
            }
        }
    }
}

// Behind the value of a whole text only white space stands.
pub fn ended(s: &[u8], at: usize) -> Result<(), Fault>
    requires { at ≤ length s.now }
    ensures { result ≡ from (ws ∷ []) s.now at }
{
    let j = space(s, at);
    if j < s.len() {
        return Err(Fault::Breaks(j));
    }
    Ok(())
}

// Are the bytes a JSON text of the levels allowed?
pub fn scan(s: &[u8]) -> Result<(), Fault>
    ensures { result ≡ verdict s.now }
{
    let n = value(s, space(s, 0), LEVELS)?;
    ended(s, n)
}
