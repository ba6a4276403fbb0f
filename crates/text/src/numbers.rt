// The scan of numbers: RFC 8259, section 6, behind the sign.
ghost use Rattle.std.specs.Prelude.{[], ◌∷◌, ◌≤◌, length};
ghost use Rattle.text.specs.Machine.{digits, digit, integer, fraction, exponent, sign};
ghost use Rattle.text.specs.Reading.{Done, Goes};

use crate::fault::Fault;

// Past digits, if there are any.
fn some_digits(s: &[u8], at: usize) -> usize
    requires { at ≤ length s.now }
    ensures { Done s.now (digits ∷ []) at result }
{
    let mut i = at;
    while i < s.len() {
        let b = s[i];
        match b {
            b'0'..=b'9' => {
                i += 1;
            }
            _ => {
                return i;
            }
        }
    }
    i
}

// One digit or more.
fn one_or_more(s: &[u8], at: usize) -> Result<usize, Fault>
    requires { at ≤ length s.now }
    ensures { Goes s.now (digit ∷ digits ∷ []) at result }
{
    if s.len() <= at {
        return Err(Fault::Breaks(at));
    }
    let b = s[at];
    match b {
        b'0'..=b'9' => Ok(some_digits(s, at + 1)),
        _ => Err(Fault::Breaks(at)),
    }
}

// Past a sign, if there is one.
fn past_sign(s: &[u8], at: usize) -> usize
    requires { at ≤ length s.now }
    ensures { Done s.now (sign ∷ []) at result }
{
    if s.len() <= at {
        return at;
    }
    let b = s[at];
    match b {
        b'+' | b'-' => at + 1,
        _ => at,
    }
}

// Past an exponent, if there is one.
fn past_exponent(s: &[u8], at: usize) -> Result<usize, Fault>
    requires { at ≤ length s.now }
    ensures { Goes s.now (exponent ∷ []) at result }
{
    if s.len() <= at {
        return Ok(at);
    }
    let b = s[at];
    match b {
        b'E' | b'e' => {
            let i = past_sign(s, at + 1);
            one_or_more(s, i)
        }
        _ => Ok(at),
    }
}

// Past a fraction and an exponent, if there are any.
fn past_fraction(s: &[u8], at: usize) -> Result<usize, Fault>
    requires { at ≤ length s.now }
    ensures { Goes s.now (fraction ∷ []) at result }
{
    if s.len() <= at {
        return Ok(at);
    }
    let b = s[at];
    if b != b'.' {
        return past_exponent(s, at);
    }
    let n = one_or_more(s, at + 1)?;
    past_exponent(s, n)
}

// A number behind its minus.
pub fn unsigned(s: &[u8], at: usize) -> Result<usize, Fault>
    requires { at ≤ length s.now }
    ensures { Goes s.now (integer ∷ []) at result }
{
    if s.len() <= at {
        return Err(Fault::Breaks(at));
    }
    let b = s[at];
    match b {
        b'0' => past_fraction(s, at + 1),
        b'1'..=b'9' => {
            let i = some_digits(s, at + 1);
            past_fraction(s, i)
        }
        _ => Err(Fault::Breaks(at)),
    }
}
