// Numbers from their digits: in decoded characters, or spelt in a text.
ghost use Rattle.std.specs.Prelude.{◌≡◌, ◌≤◌, ℕ, List};
ghost use Rattle.syntax.specs.Limits.{greatest};
ghost use Rattle.syntax.specs.Forms.{number_in};
ghost use Rattle.syntax.specs.Told.{told_number, with_digit, Means};

// The greatest number that an entry or a value may be.
const GREATEST: u64 = 9007199254740991;

// The first and the last digit.
const ZERO: u32 = '0' as u32;

const NINE: u32 = '9' as u32;

// One digit more behind those that made n. The test keeps n small enough for the next product.
fn with_digit(n: u64, c: u32) -> Option<u64>
    requires { n ≤ greatest }
    ensures { told_number result ≡ with_digit n c }
{
    match c {
        ZERO..=NINE => {
            let m = n * 10 + (c - ZERO) as u64;
            if m <= GREATEST { Some(m) } else { None }
        }
        _ => None,
    }
}

// The number that digits make, be they characters or bytes.
fn number_of<D: Copy + Into<u32>>(digits: &[D]) -> Option<u64>
    ensures { (cs : List ℕ) → Means D.converts digits.now cs → told_number result ≡ number_in cs }
{
    if digits.is_empty() {
        return None;
    }
    if digits[0].into() == ZERO {
        return if digits.len() == 1 { Some(0) } else { None };
    }
    let mut n = 0;
    for d in digits {
        n = with_digit(n, (*d).into())?;
    }
    Some(n)
}

pub fn number_in(cs: &[u32]) -> Option<u64>
    ensures { told_number result ≡ number_in cs.now }
{
    number_of(cs)
}

// The same for the bytes of a JSON number.
pub fn number_spelt(w: &[u8]) -> Option<u64>
    ensures { told_number result ≡ number_in w.now }
{
    number_of(w)
}
