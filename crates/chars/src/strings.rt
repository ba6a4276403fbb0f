// Strings: the bytes between two quotes, as characters.
ghost use Rattle.std.specs.Prelude.{◌≡◌, true, Some, ◌+◌, ◌<◌, ◌≤◌, ◌%◌, length, get_or, set, drop};
ghost use Rattle.chars.specs.Base.{In};
ghost use Rattle.chars.specs.Decoding.{hex_of, code_at, letter_of, units_of, paired_with, text_of, same_text, Decodes};
ghost use Rattle.chars.specs.Steps.{stepped, DigitAt, Escaped, Leading, Past, PlainEight, Plain, Reads};
ghost use Rattle.chars.specs.Steps.{SameEight, Moves, Match};

// Why a run does not hold the characters: a surrogate escape is no half of a pair, or the run is too short for them.
#[derive(Clone, Copy, PartialEq, Eq)]
pub enum DecodeError {
    Lone,
    Short,
}

// A character that some bytes begin with, and how many bytes behind the first belong to it.
#[derive(Clone, Copy)]
struct Step {
    c: u32,
    more: usize,
}

// The character at a place, and the place behind it.
#[derive(Clone, Copy)]
struct Character {
    c: u32,
    past: usize,
}

// The byte at a place, 0 past the end.
fn byte_at(s: &[u8], i: usize) -> u8
    ensures { result ≡ get_or s.now i 0 }
{
    s.get(i).copied().unwrap_or(0)
}

// The number of a hexadecimal digit.
#[tactic(auto, unfolding(crate::specs::Decoding::hex_of))]
fn hex(b: u8) -> u32
    ensures { result ≡ hex_of b }
{
    let digit = match b {
        b'0'..=b'9' => b - b'0',
        b'A'..=b'F' => b - b'A' + 10,
        b'a'..=b'f' => b - b'a' + 10,
        _ => 0,
    };
    u32::from(digit)
}

fn hex_at(s: &[u8], i: usize) -> u32
    ensures { DigitAt s.now i result }
{
    hex(byte_at(s, i))
}

// The number of the four digits from a place on.
fn code(s: &[u8], i: usize) -> u32
    requires { i ≤ 8 }
    ensures { result ≡ code_at s.now i }
{
    let a = hex_at(s, i);
    let b = hex_at(s, i + 1);
    let c = hex_at(s, i + 2);
    let d = hex_at(s, i + 3);
    a * 4096 + b * 256 + c * 16 + d
}

// The character of a letter behind a reverse solidus.
#[tactic(auto, unfolding(crate::specs::Decoding::letter_of))]
fn letter(b: u8) -> u8
    ensures { result ≡ letter_of b }
{
    match b {
        b'b' => 8,
        b'f' => 12,
        b'n' => b'\n',
        b'r' => b'\r',
        b't' => b'\t',
        _ => b,
    }
}

// The pair whose first half h stands in the first six bytes, if the second half follows.
fn pair(s: &[u8], h: u32) -> Option<Step>
    requires { In 55296 56319 h }
    ensures { paired_with h (units_of (drop 6 s.now)) ≡ stepped result s.now }
{
    if byte_at(s, 6) != b'\\' || byte_at(s, 7) != b'u' {
        return None;
    }
    let l = code(s, 8);
    match l {
        0xdc00..=0xdfff => Some(Step {
            c: 0x10000 + (h - 0xd800) * 1024 + (l - 0xdc00),
            more: 11,
        }),
        _ => None,
    }
}

// An escape by four digits, with the one behind it where the two are a pair.
fn coded(s: &[u8]) -> Option<Step>
    requires { Escaped s.now }
    ensures { text_of s.now ≡ stepped result s.now }
{
    let u = code(s, 2);
    match u {
        0xd800..=0xdbff => pair(s, u),
        0xdc00..=0xdfff => None,
        _ => Some(Step { c: u, more: 5 }),
    }
}

// The low six bits of the byte at a place.
fn six(s: &[u8], i: usize) -> u32
    ensures { result ≡ get_or s.now i 0 % 64 }
{
    u32::from(byte_at(s, i)) % 64
}

// A character of two bytes or more.
fn sequence(s: &[u8], a: u32) -> Step
    requires { Leading s.now a }
    ensures { text_of s.now ≡ stepped (Some result) s.now }
{
    let p = six(s, 1);
    if a < 224 {
        return Step {
            c: a % 32 * 64 + p,
            more: 1,
        };
    }
    let q = six(s, 2);
    if a < 240 {
        return Step {
            c: a % 16 * 4096 + p * 64 + q,
            more: 2,
        };
    }
    let r = six(s, 3);
    Step {
        c: a % 8 * 262144 + p * 4096 + q * 64 + r,
        more: 3,
    }
}

// What the bytes begin with, if it is no surrogate escape that stands alone.
fn first(s: &[u8]) -> Option<Step>
    requires { 0 < length s.now }
    ensures { text_of s.now ≡ stepped result s.now }
{
    let a = s[0];
    match a {
        b'\\' => {
            let b = byte_at(s, 1);
            if b == b'u' {
                return coded(s);
            }
            Some(Step {
                c: u32::from(letter(b)),
                more: 1,
            })
        }
        0..=127 => Some(Step {
            c: u32::from(a),
            more: 0,
        }),
        _ => Some(sequence(s, u32::from(a))),
    }
}

// The place behind the byte at i and `more` others, or the end where it comes first.
fn past(s: &[u8], i: usize, more: usize) -> usize
    requires { i < length s.now }
    ensures { Past s.now i more result }
{
    (i + 1).saturating_add(more).min(s.len())
}

// A number is put where there is room for it.
fn put(out: &mut [u32], n: usize, c: u32)
    ensures { out.new ≡ set out.old n c }
{
    if n < out.len() {
        out[n] = c;
    }
}

// Is it a character by itself? Without branches, so that eight at once are tested as one.
fn plain(b: u8) -> bool
    ensures { result ≡ true → Plain b }
{
    (b < 128) & (b != b'\\')
}

// The character at a place, if it is no surrogate escape that stands alone. ASCII that is no escape takes the short
// way.
fn char_at(s: &[u8], i: usize) -> Option<Character>
    requires { i < length s.now }
    ensures { Reads s.now i result }
{
    let b = s[i];
    if plain(b) {
        return Some(Character {
            c: u32::from(b),
            past: i + 1,
        });
    }
    let Step { c, more } = first(&s[i..])?;
    Some(Character {
        c,
        past: past(s, i, more),
    })
}

// Are the eight bytes from a place on plain?
fn plain_eight(s: &[u8], at: usize) -> bool
    requires { at + 8 ≤ length s.now }
    ensures { result ≡ true → PlainEight s.now at }
{
    let mut all = true;
    for j in 0..8 {
        all = all & plain(s[at + j]);
    }
    all
}

// Eight plain bytes are put, from a place of the run on.
fn put_eight(s: &[u8], at: usize, out: &mut [u32], n: usize)
    requires { (at + 8 ≤ length s.now) × (n + 8 ≤ length out.old) × (PlainEight s.now at) }
    ensures { Moves s.now out.old out.new at n (at + 8) }
{
    for j in 0..8 {
        out[n + j] = u32::from(s[at + j]);
    }
}

// Plain bytes are put eight by eight, as many as come and have room; answers the place behind them.
fn put_eights(s: &[u8], at: usize, out: &mut [u32], from: usize) -> usize
    requires { at ≤ length s.now }
    ensures { Moves s.now out.old out.new at from result }
{
    let mut i = at;
    let mut n = from;
    while 8 <= s.len() - i && n <= out.len() && 8 <= out.len() - n && plain_eight(s, i) {
        put_eight(s, i, out, n);
        i += 8;
        n += 8;
    }
    i
}

// Plain bytes are put, as many as come; answers the place behind them.
fn put_plain(s: &[u8], at: usize, out: &mut [u32], from: usize) -> usize
    requires { (at ≤ length s.now) × (from ≤ at) }
    ensures { Moves s.now out.old out.new at from result }
{
    let mut i = put_eights(s, at, out, from);
    let mut n = from + (i - at);
    while i < s.len() && plain(s[i]) {
        put(out, n, u32::from(s[i]));
        i += 1;
        n += 1;
    }
    i
}

// The characters of the bytes between two quotes, written to the beginning of the lent run as far as it goes, and
// their number.
pub fn decode(s: &[u8], out: &mut [u32]) -> Result<usize, DecodeError>
    ensures { Decodes s.now out.old result out.new }
{
    let mut i = 0;
    let mut n = 0;
    loop {
        let end = put_plain(s, i, out, n);
        n += end - i;
        if end == s.len() {
            break;
        }
        let Character { c, past } = char_at(s, end).ok_or(DecodeError::Lone)?;
        put(out, n, c);
        n += 1;
        i = past;
    }
    if n <= out.len() {
        Ok(n)
    } else {
        Err(DecodeError::Short)
    }
}

// Are the eight bytes from a place on plain, and the same in both?
fn same_eight(s: &[u8], w: &[u8], at: usize) -> bool
    requires { (at + 8 ≤ length s.now) × (at + 8 ≤ length w.now) }
    ensures { result ≡ true → SameEight s.now w.now at }
{
    let mut all = true;
    for j in 0..8 {
        let b = s[at + j];
        all = all & plain(b) & (b == w[at + j]);
    }
    all
}

// Past some of the plain bytes in which the two agree, eight by eight.
fn same_eights(s: &[u8], w: &[u8]) -> usize
    ensures { (result ≤ length s.now) × (Match s.now w.now result result) }
{
    let mut i = 0;
    while 8 <= s.len() - i && 8 <= w.len() - i && same_eight(s, w, i) {
        i += 8;
    }
    i
}

// The same as `same`, character by character.
fn same_each(s: &[u8], w: &[u8]) -> bool
    ensures { result ≡ same_text (text_of s.now) w.now }
{
    let mut i = 0;
    for b in w {
        if i == s.len() {
            return false;
        }
        let Some(Character { c, past }) = char_at(s, i) else {
            return false;
        };
        if c != u32::from(*b) {
            return false;
        }
        i = past;
    }
    i == s.len()
}

// Are the characters of the bytes between two quotes these ASCII bytes?
pub fn same(s: &[u8], w: &[u8]) -> bool
    ensures { result ≡ same_text (text_of s.now) w.now }
{
    let i = same_eights(s, w);
    same_each(&s[i..], &w[i..])
}
