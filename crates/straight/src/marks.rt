// What stands between values: brackets, commas, names. Each function answers the place behind what it passes, or none
// where something else stands.
ghost use Rattle.std.specs.Prelude.{◌≡◌, true, ◌+◌, ◌≤◌, length};
ghost use Rattle.text.specs.Json.{Spelt, Quoted};
ghost use Rattle.straight.specs.Marks.{Unless, Opened, Closed, Parted, Named, First, Next, all_bare};

use text::scan;

// Are the bytes at a place these? Without branches, so that many are tested at once.
fn spells(s: &[u8], at: usize, w: &[u8]) -> bool
    requires { at + length w.now ≤ length s.now }
    ensures { result ≡ true → Spelt s.now w.now at (at + length w.now) }
{
    let mut all = true;
    for j in 0..w.len() {
        all = all & (s[at + j] == w[j]);
    }
    all
}

// A word that stands for itself, between two quotes.
pub fn quote(s: &[u8], at: usize, w: &[u8]) -> Option<usize>
    requires { all_bare w.now ≡ true }
    ensures { Unless result (Quoted s.now w.now at) }
{
    if s.len() <= at {
        return None;
    }
    let left = s.len() - at;
    if left <= w.len() || left - w.len() < 2 {
        return None;
    }
    if s[at] != b'"' {
        return None;
    }
    let to = at + 1 + w.len();
    if s[to] != b'"' {
        return None;
    }
    if !spells(s, at + 1, w) {
        return None;
    }
    Some(to + 1)
}

// A byte, and white space behind it.
pub fn opened(s: &[u8], v: usize, b: u8) -> Option<usize>
    ensures { Unless result (Opened s.now b v) }
{
    if s.len() <= v || s[v] != b {
        return None;
    }
    Some(scan::space(s, v + 1))
}

// White space, and a byte behind it.
pub fn closed(s: &[u8], i: usize, b: u8) -> Option<usize>
    requires { i ≤ length s.now }
    ensures { Unless result (Closed s.now b i) }
{
    let j = scan::space(s, i);
    if s.len() <= j || s[j] != b {
        return None;
    }
    Some(j + 1)
}

// A byte with white space on both sides.
pub fn parted(s: &[u8], i: usize, b: u8) -> Option<usize>
    requires { i ≤ length s.now }
    ensures { Unless result (Parted s.now b i) }
{
    let j = closed(s, i, b)?;
    Some(scan::space(s, j))
}

// A member's name, this word, and its colon.
pub fn named(s: &[u8], at: usize, w: &[u8]) -> Option<usize>
    requires { all_bare w.now ≡ true }
    ensures { Unless result (Named s.now w.now at) }
{
    let q = quote(s, at, w)?;
    parted(s, q, b':')
}

// The first member of an object, if it has this name.
pub fn first(s: &[u8], v: usize, w: &[u8]) -> Option<usize>
    requires { all_bare w.now ≡ true }
    ensures { Unless result (First s.now w.now v) }
{
    let i = opened(s, v, b'{')?;
    named(s, i, w)
}

// The member behind the one that ends at a place, if it has this name.
pub fn next(s: &[u8], i: usize, w: &[u8]) -> Option<usize>
    requires { (i ≤ length s.now) × (all_bare w.now ≡ true) }
    ensures { Unless result (Next s.now w.now i) }
{
    let j = parted(s, i, b',')?;
    named(s, j, w)
}
