// Forms of texts: what decoded characters are.
ghost use Rattle.std.specs.Prelude.{◌≡◌, true, [], ◌∷◌, ◌+◌, ◌≤◌, length, get_or, drop};
ghost use Rattle.syntax.specs.Forms.{Each, same, is_alphanumeric, is_vendor_char, is_name_char, is_name, is_vendor};
ghost use Rattle.syntax.specs.Forms.{is_action, colons, is_arn, is_resource, is_sid, is_key_char, is_key, lower};
ghost use Rattle.syntax.specs.Forms.{same_key};

// They stand for * and ? where these are wildcards; no character has these numbers.
pub const STAR: u32 = 1114112;

pub const ANY: u32 = 1114113;

// Characters of a Sid.
const SID: usize = 64;

const ASTERISK: u32 = b'*' as u32;

const QUESTION_MARK: u32 = b'?' as u32;

const HYPHEN: u32 = b'-' as u32;

const DOT: u32 = b'.' as u32;

const SLASH: u32 = b'/' as u32;

const COLON: u32 = b':' as u32;

const UNDERSCORE: u32 = b'_' as u32;

// arn:
const ARN: [u32; 4] = [97, 114, 110, 58];

// Without branches, so that eight at once are tested as one.
fn is_alphanumeric(c: u32) -> bool
    ensures { result ≡ is_alphanumeric c }
{
    ((47 < c) & (c < 58)) | ((64 < c) & (c < 91)) | ((96 < c) & (c < 123))
}

#[tactic(auto, unfolding(crate::specs::Forms::is_vendor_char, chars::specs::Base::one_of))]
pub fn is_vendor_char(c: u32) -> bool
    ensures { result ≡ is_vendor_char c }
{
    matches!(c, HYPHEN | DOT | UNDERSCORE) || is_alphanumeric(c)
}

#[tactic(auto, unfolding(crate::specs::Forms::is_name_char, chars::specs::Base::one_of))]
fn is_name_char(c: u32) -> bool
    ensures { result ≡ is_name_char c }
{
    matches!(c, ASTERISK | QUESTION_MARK) || is_vendor_char(c)
}

#[tactic(auto, unfolding(crate::specs::Forms::is_key_char, chars::specs::Base::one_of))]
fn is_key_char(c: u32) -> bool
    ensures { result ≡ is_key_char c }
{
    matches!(c, HYPHEN | DOT | SLASH | COLON | UNDERSCORE) || is_alphanumeric(c)
}

// Are the eight characters from a place on letters and digits?
fn alphanumeric_eight(cs: &[u32], at: usize) -> bool
    requires { at + 8 ≤ length cs.now }
    ensures { result ≡ true → Each is_alphanumeric cs.now at (at + 8) }
{
    let mut all = true;
    for j in 0..8 {
        all = all & is_alphanumeric(cs[at + j]);
    }
    all
}

// Past some of the letters and digits, eight by eight; the last eight may overlap those before them.
fn past_eights(cs: &[u32]) -> usize
    ensures { Each is_alphanumeric cs.now 0 result }
{
    let Some(last) = cs.len().checked_sub(8) else {
        return 0;
    };
    let mut i = 0;
    while i < last {
        if !alphanumeric_eight(cs, i) {
            return i;
        }
        i += 8;
    }
    if alphanumeric_eight(cs, last) {
        cs.len()
    } else {
        i
    }
}

// The name of an action.
fn is_name(cs: &[u32]) -> bool
    ensures { result ≡ is_name cs.now }
{
    !cs.is_empty() && cs[past_eights(cs)..].iter().all(|c| is_name_char(*c))
}

// A vendor, a colon and a name: the colon is the first character that belongs to no vendor.
pub fn is_vendor(cs: &[u32]) -> bool
    ensures { result ≡ is_vendor cs.now }
{
    let Some(end) = cs.iter().position(|c| !is_vendor_char(*c)) else {
        return false;
    };
    if end == 0 || cs[end] != COLON {
        return false;
    }
    is_name(&cs[end + 1..])
}

#[tactic(auto, using(crate::proofs::Laws::Forms::only_is, crate::proofs::Laws::Forms::only_not))]
pub fn is_only(cs: &[u32], c: u32) -> bool
    ensures { result ≡ same cs.now (c ∷ []) }
{
    cs.len() == 1 && cs[0] == c
}

#[tactic(auto, unfolding(crate::specs::Forms::is_action))]
pub fn is_action(cs: &[u32]) -> bool
    ensures { result ≡ is_action cs.now }
{
    is_only(cs, ASTERISK) || is_vendor(cs)
}

pub fn is_sid(cs: &[u32]) -> bool
    ensures { result ≡ is_sid cs.now }
{
    if cs.is_empty() || cs.len() > SID {
        return false;
    }
    cs[past_eights(cs)..].iter().all(|c| is_alphanumeric(*c))
}

pub fn is_key(cs: &[u32]) -> bool
    ensures { result ≡ is_key cs.now }
{
    !cs.is_empty() && cs.iter().all(|c| is_key_char(*c))
}

pub fn same_text(a: &[u32], b: &[u32]) -> bool
    ensures { result ≡ same a.now b.now }
{
    a == b
}

#[tactic(auto, unfolding(crate::specs::Forms::lower))]
fn lower(c: u32) -> u32
    ensures { result ≡ lower c }
{
    match c {
        65..=90 => c + 32,
        _ => c,
    }
}

pub fn same_key(a: &[u32], b: &[u32]) -> bool
    ensures { result ≡ same_key a.now b.now }
{
    a.len() == b.len() && a.iter().zip(b.iter()).all(|(x, y)| lower(*x) == lower(*y))
}

// The character k places behind place i, 0 past the end.
pub fn character(cs: &[u32], i: usize, k: usize) -> u32
    requires { i ≤ length cs.now }
    ensures { result ≡ get_or (drop i cs.now) k 0 }
{
    cs[i..].get(k).copied().unwrap_or(0)
}

fn colons(cs: &[u32]) -> usize
    ensures { result ≡ colons cs.now }
{
    let mut n = 0;
    for c in cs {
        if *c == COLON {
            n += 1;
        }
    }
    n
}

pub fn is_arn(cs: &[u32]) -> bool
    ensures { result ≡ is_arn cs.now }
{
    cs.starts_with(&ARN) && 5 <= colons(cs)
}

#[tactic(auto, unfolding(crate::specs::Forms::is_resource))]
pub fn is_resource(ys: &[u32]) -> bool
    ensures { result ≡ is_resource ys.now }
{
    is_only(ys, STAR) || is_arn(ys)
}
