// Lines of a run of bytes.
ghost use Rattle.std.specs.Prelude.{◌≡◌, false, ◌+◌, ◌≤◌, length, drop};
ghost use Rattle.chars.specs.Lines.{line_at, unbroken};

// A line ends before `end`, and the next one would begin at `next`.
#[derive(Clone, Copy, PartialEq, Eq)]
pub struct Line {
    pub end: usize,
    pub next: usize,
}

// Is one of the eight bytes from a place on an LF? Without branches, so that they are tested as one.
fn lf_in_eight(s: &[u8], at: usize) -> bool
    requires { at + 8 ≤ length s.now }
    ensures { result ≡ false → at + 8 + unbroken (drop (at + 8) s.now) ≡ at + unbroken (drop at s.now) }
{
    let mut found = false;
    for j in 0..8 {
        found = found | (s[at + j] == b'\n');
    }
    found
}

// Past some of the bytes before the first LF, eight by eight.
fn past_eights(s: &[u8], at: usize) -> usize
    requires { at ≤ length s.now }
    ensures { (result ≤ length s.now) × (result + unbroken (drop result s.now) ≡ at + unbroken (drop at s.now)) }
{
    let mut i = at;
    while 8 <= s.len() - i && !lf_in_eight(s, i) {
        i += 8;
    }
    i
}

// The place of the first LF from a place on, or the length.
fn line_end(s: &[u8], at: usize) -> usize
    requires { at ≤ length s.now }
    ensures { result ≡ at + unbroken (drop at s.now) }
{
    let from = past_eights(s, at);
    match s[from..].iter().position(|b| *b == b'\n') {
        Some(before) => from + before,
        None => s.len(),
    }
}

// The line that begins at a place, if one does.
pub fn line_at(s: &[u8], at: usize) -> Option<Line>
    ensures { result ≡ line_at s.now at }
{
    if s.len() <= at {
        return None;
    }
    let end = line_end(s, at);
    let next = if end < s.len() { end + 1 } else { end };
    Some(Line { end, next })
}
