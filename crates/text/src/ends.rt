// The end of a string in a text known to be whole: the first quote that is no part of an escape.
ghost use Rattle.std.specs.Prelude.{[], ◌∷◌, false, ◌≡◌, ℕ, ◌+◌, ◌≤◌, length};
ghost use Rattle.text.specs.Machine.{text};
ghost use Rattle.text.specs.Reading.{Done};
ghost use Rattle.text.specs.Seeking.{Unmarked, Nears, Quoting};

// A quote or a reverse solidus? Without branches, so that eight at once are tested as one.
fn mark(b: u8) -> bool
    ensures { result ≡ false → Unmarked b }
{
    (b == b'"') | (b == b'\\')
}

// Is one of the eight bytes from a place on a mark?
fn mark_in_eight(s: &[u8], at: usize) -> bool
    requires { at + 8 ≤ length s.now }
    ensures { result ≡ false → Nears s.now at (at + 8) }
{
    let mut found = false;
    for j in 0..8 {
        found |= mark(s[at + j]);
    }
    found
}

// Past some of the bytes that are no marks, eight by eight.
fn unmarked_eights(s: &[u8], at: usize) -> usize
    requires { at ≤ length s.now }
    ensures { Nears s.now at result }
{
    let mut i = at;
    while 8 <= s.len() - i {
        if mark_in_eight(s, i) {
            return i;
        }
        i += 8;
    }
    i
}

// The place behind the quote that closes the string whose bytes begin at a place.
pub fn past_quote(s: &[u8], at: usize) -> usize
    requires { Quoting s.now at }
    ensures { (e : ℕ) → Done s.now (text ∷ []) at e → result ≡ e }
{
    let mut i = unmarked_eights(s, at);
    loop {
        let b = s[i];
        if b == b'"' {
            return i + 1;
        }
        if b == b'\\' {
            i += 2;
        } else {
            i += 1;
        }
    }
}
