// Written form: characters as the bytes of a JSON string.
ghost use Rattle.std.specs.Prelude.{◌≡◌, [], ◌∷◌, ◌+◌, ◌≤◌, ◌<◌, leb, length};
ghost use Rattle.chars.specs.Written.{hex_digit, coded, written, written_text, write_of};
ghost use Rattle.chars.specs.Putting.{put_at, Puts};

const QUOTE: u32 = b'"' as u32;

const BACKSLASH: u32 = b'\\' as u32;

// The last control character, the last character that is written as itself, and the last that one escape can say.
const LAST_CONTROL: u32 = 31;

const LAST_BARE: u32 = 126;

const LAST_CODED: u32 = 0xffff;

// How many bytes a character takes.
#[tactic(auto, unfolding(crate::specs::Written::written, crate::specs::Written::coded))]
pub fn width(c: u32) -> usize
    ensures { result ≡ length (written c) }
{
    match c {
        QUOTE | BACKSLASH => 2,
        0..=LAST_CONTROL => 6,
        0..=LAST_BARE => 1,
        0..=LAST_CODED => 6,
        _ => 12,
    }
}

// A lower-case hexadecimal digit.
fn digit(n: u32) -> u8
    requires { n < 16 }
    ensures { result ≡ hex_digit n }
{
    if n <= 9 {
        b'0' + n as u8
    } else {
        b'a' + (n - 10) as u8
    }
}

// Bytes that fit, and the place behind them.
fn put(out: &mut [u8], at: usize, bs: &[u8]) -> usize
    requires { at + length bs.now ≤ length out.old }
    ensures { Puts out.old at bs.now result out.new }
{
    let next = at + bs.len();
    out[at..next].copy_from_slice(bs);
    next
}

// The escape by four digits.
#[tactic(auto, unfolding(crate::specs::Written::coded))]
fn put_code(out: &mut [u8], at: usize, u: u32) -> usize
    requires { at + 6 ≤ length out.old }
    ensures { Puts out.old at (coded u) result out.new }
{
    let escape = [
        b'\\',
        b'u',
        digit(u / 4096 % 16),
        digit(u / 256 % 16),
        digit(u / 16 % 16),
        digit(u % 16),
    ];
    put(out, at, &escape)
}

// The two escapes of a character above U+FFFF.
fn put_pair(out: &mut [u8], at: usize, c: u32) -> usize
    requires { (65535 < c) × (at + 12 ≤ length out.old) }
    ensures { Puts out.old at (written c) result out.new }
{
    let next = put_code(out, at, 0xd800 + (c - 0x10000) / 1024);
    put_code(out, next, 0xdc00 + (c - 0x10000) % 1024)
}

// The written form of c, where it fits.
#[tactic(auto, unfolding(crate::specs::Written::written, crate::specs::Written::coded))]
fn put_form(out: &mut [u8], at: usize, c: u32) -> usize
    requires { at + length (written c) ≤ length out.old }
    ensures { Puts out.old at (written c) result out.new }
{
    match c {
        QUOTE | BACKSLASH => put(out, at, &[b'\\', c as u8]),
        0..=LAST_CONTROL => put_code(out, at, c),
        0..=LAST_BARE => put(out, at, &[c as u8]),
        0..=LAST_CODED => put_code(out, at, c),
        _ => put_pair(out, at, c),
    }
}

// The written form of c from a place on, and the place behind it; where it does not fit, neither.
pub fn put_char(out: &mut [u8], at: usize, c: u32) -> Option<usize>
    ensures { (result, out.new) ≡ put_at out.old at (written c) }
{
    let room = out.len().checked_sub(at)?;
    if room < width(c) {
        return None;
    }
    Some(put_form(out, at, c))
}

// Do the characters take no more bytes than these?
fn fits(cs: &[u32], room: usize) -> bool
    ensures { result ≡ leb (length (written_text cs.now)) room }
{
    let mut left = room;
    for c in cs {
        let Some(rest) = left.checked_sub(width(*c)) else {
            return false;
        };
        left = rest;
    }
    true
}

// All of the characters, at the beginning of out, and how many bytes they take; or neither where they do not fit.
pub fn write_text(cs: &[u32], out: &mut [u8]) -> Option<usize>
    ensures { (result, out.new) ≡ write_of (written_text cs.now) out.old }
{
    if !fits(cs, out.len()) {
        return None;
    }
    let mut at = 0;
    for c in cs {
        at = put_form(out, at, *c);
    }
    Some(at)
}
