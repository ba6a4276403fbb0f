// The scan of strings: RFC 8259, section 7, in UTF-8.
ghost use Rattle.std.specs.Prelude.{[], ◌∷◌, false, ◌≡◌, ◌+◌, ◌≤◌, length, replicate};
ghost use Rattle.chars.specs.Base.{At};
ghost use Rattle.text.specs.Machine.{range, hex, text, char, move, go, escape};
ghost use Rattle.text.specs.Reading.{Leads, Goes};

use crate::fault::Fault;

// Four hexadecimal digits.
fn four_hex(s: &[u8], at: usize) -> Result<usize, Fault>
    requires { at ≤ length s.now }
    ensures { Goes s.now (replicate 4 hex) at result }
{
    let mut i = at;
    let mut left: usize = 4;
    while 0 < left {
        if s.len() <= i {
            return Err(Fault::Breaks(i));
        }
        let b = s[i];
        match b {
            b'0'..=b'9' | b'A'..=b'F' | b'a'..=b'f' => {
                i += 1;
                left -= 1;
            }
            _ => {
                return Err(Fault::Breaks(i));
            }
        }
    }
    Ok(i)
}

// What follows a reverse solidus.
fn escaped(s: &[u8], at: usize) -> Result<usize, Fault>
    requires { at ≤ length s.now }
    ensures { Goes s.now (escape ∷ []) at result }
{
    if s.len() <= at {
        return Err(Fault::Breaks(at));
    }
    let b = s[at];
    match b {
        b'"' | b'/' | b'\\' | b'b' | b'f' | b'n' | b'r' | b't' => Ok(at + 1),
        b'u' => four_hex(s, at + 1),
        _ => Err(Fault::Breaks(at)),
    }
}

// A byte from lo to hi, and so many tails behind it.
fn tails(s: &[u8], at: usize, lo: u8, hi: u8, more: usize) -> Result<usize, Fault>
    requires { at ≤ length s.now }
    ensures { Goes s.now (range lo hi ∷ replicate more (range 128 191)) at result }
{
    let mut i = at;
    let mut low = lo;
    let mut high = hi;
    let mut left = more;
    loop {
        if s.len() <= i {
            return Err(Fault::Breaks(i));
        }
        let b = s[i];
        if b < low {
            return Err(Fault::Breaks(i));
        }
        if high < b {
            return Err(Fault::Breaks(i));
        }
        i += 1;
        if left == 0 {
            return Ok(i);
        }
        left -= 1;
        low = 128;
        high = 191;
    }
}

// A sequence of UTF-8 that begins with the byte at a place, which is beyond ASCII.
fn sequence(s: &[u8], at: usize, b: u8) -> Result<usize, Fault>
    requires { (At s.now at b) × (128 ≤ b) }
    ensures { Goes s.now (char ∷ []) at result }
{
    let i = at + 1;
    match b {
        194..=223 => tails(s, i, 128, 191, 0),
        224 => tails(s, i, 160, 191, 1),
        237 => tails(s, i, 128, 159, 1),
        225..=239 => tails(s, i, 128, 191, 1),
        240 => tails(s, i, 144, 191, 2),
        241..=243 => tails(s, i, 128, 191, 2),
        244 => tails(s, i, 128, 143, 2),
        _ => Err(Fault::Breaks(at)),
    }
}

// A character that begins with the byte at a place, which is no quote: one byte, an escape, or a sequence of UTF-8, which
// is told from the others by one test, since strings in other languages are made of such.
fn character(s: &[u8], at: usize, b: u8) -> Result<usize, Fault>
    requires { At s.now at b }
    ensures { Goes s.now (char ∷ []) at result }
{
    if 128 <= b {
        return sequence(s, at, b);
    }
    match b {
        b'\\' => escaped(s, at + 1),
        b' '..=127 => Ok(at + 1),
        _ => Err(Fault::Breaks(at)),
    }
}

// Is it a byte that does not stand for itself in a string? Without branches, so that eight at once are tested as one.
fn special(b: u8) -> bool
    ensures { result ≡ false → move text b ≡ go (text ∷ []) }
{
    (b < 32) | (127 < b) | (b == b'"') | (b == b'\\')
}

// Is one of the eight bytes from a place on special?
fn special_in_eight(s: &[u8], at: usize) -> bool
    requires { at + 8 ≤ length s.now }
    ensures { result ≡ false → Leads s.now (text ∷ []) at (text ∷ []) (at + 8) }
{
    let mut found = false;
    for j in 0..8 {
        found |= special(s[at + j]);
    }
    found
}

// Past some of the bytes that are not special, eight by eight.
fn plain_eights(s: &[u8], at: usize) -> usize
    requires { at ≤ length s.now }
    ensures { Leads s.now (text ∷ []) at (text ∷ []) result }
{
    let mut i = at;
    while 8 <= s.len() - i {
        if special_in_eight(s, i) {
            return i;
        }
        i += 8;
    }
    i
}

// Past those of the eight bytes from a place on that come before the first special one.
fn plain_of_eight(s: &[u8], at: usize) -> usize
    requires { at + 8 ≤ length s.now }
    ensures { Leads s.now (text ∷ []) at (text ∷ []) result }
{
    let mut j = 0;
    while j < 8 {
        if special(s[at + j]) {
            return at + j;
        }
        j += 1;
    }
    at + 8
}

// Past bytes that are not special.
pub fn plain(s: &[u8], at: usize) -> usize
    requires { at ≤ length s.now }
    ensures { Leads s.now (text ∷ []) at (text ∷ []) result }
{
    let mut i = plain_eights(s, at);
    if 8 <= s.len() - i {
        return plain_of_eight(s, i);
    }
    while i < s.len() {
        if special(s[i]) {
            return i;
        }
        i += 1;
    }
    i
}

// The rest of a string from a place on, with its closing quote, character by character.
fn characters(s: &[u8], at: usize) -> Result<usize, Fault>
    requires { at ≤ length s.now }
    ensures { Goes s.now (text ∷ []) at result }
{
    let mut i = at;
    loop {
        let Some(&b) = s.get(i) else {
            return Err(Fault::Breaks(i));
        };
        if b == b'"' {
            return Ok(i + 1);
        }
        let n = character(s, i, b)?;
        i = plain(s, n);
    }
}

// The rest of a string behind its opening quote, with its closing quote. Most strings are plain.
#[inline(always)]
pub fn string(s: &[u8], at: usize) -> Result<usize, Fault>
    requires { at ≤ length s.now }
    ensures { Goes s.now (text ∷ []) at result }
{
    let i = plain(s, at);
    match s.get(i) {
        Some(b'"') => Ok(i + 1),
        _ => characters(s, i),
    }
}
