// What is told of a policy text before a run is made for it. Most texts are policies; one that does not look like one at
// its beginning and its end is judged here. How it looks is a hint: whatever it says, the text is read as what it is.
ghost use Rattle.std.specs.Prelude.{◌≤◌, length};
ghost use Rattle.policy.specs.Reading.{Foretells};

use crate::refusals::Refusal;
use crate::{reading, statements};
use held::limits;
use straight::marks;
use text::fault::Fault;
use text::{scan, walk, white};

// So far from a text's end another Version is looked for.
const NEAR: usize = 64;

// What a text that is not refused is told to be: it looks as a policy does; or it does not, and is whole. Either has to be
// read.
#[derive(Clone, Copy)]
pub enum Look {
    Usual,
    Whole,
}

// Where a text ends, if white space behind it is left out.
fn trimmed(s: &[u8]) -> usize
    ensures { result ≤ length s.now }
{
    match s.iter().rposition(|b| !white::blank(*b)) {
        Some(last) => last + 1,
        None => 0,
    }
}

// Does the name of a member Version stand at a place, with another value than the only one?
fn is_other_edition(s: &[u8], at: usize) -> bool {
    match marks::named(s, at, b"Version") {
        Some(v) => marks::quote(s, v, b"2012-10-17").is_none(),
        None => false,
    }
}

// The place before the last letter V, but for a first, near the end of a text that ends at n; or n.
fn before_letter(s: &[u8], n: usize) -> usize
    requires { n ≤ length s.now }
{
    let from = n.saturating_sub(NEAR).max(1).min(n);
    match s[from..n].iter().rposition(|b| *b == b'V') {
        Some(i) => from + i - 1,
        None => n,
    }
}

// Is another Version the last member of a text that ends at n?
fn ends_otherwise(s: &[u8], n: usize) -> bool
    requires { n ≤ length s.now }
{
    if n < 13 || marks::quote(s, n - 13, b"2012-10-17").is_some() {
        return false;
    }
    is_other_edition(s, before_letter(s, n))
}

// Is a text too long; or no object of members, by its first bytes and its last; or has it another Version, as its first
// member or its last?
fn is_odd(s: &[u8]) -> bool {
    if s.len() > limits::POLICY {
        return true;
    }
    let n = trimmed(s);
    if n == 0 || s[n - 1] != b'}' {
        return true;
    }
    let Some(i) = marks::opened(s, scan::space(s, 0), b'{') else {
        return true;
    };
    if s.len() <= i || s[i] != b'"' {
        return true;
    }
    if marks::named(s, i, b"Version").is_some() {
        return is_other_edition(s, i);
    }
    ends_otherwise(s, n)
}

// What is told of a text by its length, its grammar and the policy's own members.
fn judged(s: &[u8]) -> Result<Look, Refusal>
    ensures { Foretells s.now result }
{
    if s.len() > limits::POLICY {
        return Err(Refusal::PolicyLength);
    }
    match scan::scan(s) {
        Ok(()) => {
            if statements::is_framed(s, walk::root(s)) {
                return Ok(Look::Whole);
            }
            Err(Refusal::PolicyLayout)
        }
        Err(Fault::Breaks(p)) => Err(Refusal::PolicyText(p)),
        Err(Fault::Deep) => Err(Refusal::PolicyLayout),
    }
}

// The least texts, which cost less to read, count as usual; any other that does not look as a policy does is judged.
pub fn soon(s: &[u8]) -> Result<Look, Refusal>
    ensures { Foretells s.now result }
{
    if s.len() <= reading::LEAST {
        return Ok(Look::Usual);
    }
    if !is_odd(s) {
        return Ok(Look::Usual);
    }
    judged(s)
}
