// Characters that every string of the written form has as themselves, put eight at a time: most strings are of nothing
// else.
ghost use Rattle.std.specs.Prelude.{◌≡◌, true, ◌≤◌, length};
ghost use Rattle.writing.specs.Plain.{Plain, AllPlain, PlainPut};

// Characters that some string has otherwise than as themselves.
pub const QUOTE: u32 = '"' as u32;

pub const DOLLAR: u32 = '$' as u32;

pub const STAR: u32 = '*' as u32;

pub const ANY: u32 = '?' as u32;

pub const SOLIDUS: u32 = '\\' as u32;

// Is it one? Without branches, so that eight at once are tested as one.
fn plain(y: u32) -> bool
    ensures { result ≡ true → Plain y }
{
    (31 < y) & (y < 127) & (y != QUOTE) & (y != DOLLAR) & (y != STAR) & (y != ANY) & (y != SOLIDUS)
}

// One where it is.
fn count(y: u32) -> u32
    ensures { (result ≤ 1) × (result ≡ 1 → Plain y) }
{
    if plain(y) { 1 } else { 0 }
}

// Are the eight? They are counted: four at once are tested so, where joined tests are taken apart.
fn plain_eight(ys: &[u32]) -> bool
    requires { length ys.now ≡ 8 }
    ensures { result ≡ true → AllPlain ys.now }
{
    let mut n = 0u32;
    for j in 0..8 {
        n += count(ys[j]);
    }
    n == 8
}

// Eight of them are put.
fn put_eight(out: &mut [u8], ys: &[u32])
    requires { (length out.old ≡ 8) × (length ys.now ≡ 8) × (AllPlain ys.now) }
    ensures { out.new ≡ ys.now }
{
    for j in 0..8 {
        out[j] = ys[j] as u8;
    }
}

// The first of them, put eight by eight as far as they and the room go: how many.
fn put_eights(out: &mut [u8], ys: &[u32]) -> usize
    ensures { PlainPut ys.now result out.old out.new }
{
    let mut n = 0usize;
    while 8 <= ys.len() - n && 8 <= out.len() - n && plain_eight(&ys[n..n + 8]) {
        put_eight(&mut out[n..n + 8], &ys[n..n + 8]);
        n += 8;
    }
    n
}

// The first of them, put as far as they and the room go, one by one at last: how many.
pub fn put_plain(out: &mut [u8], ys: &[u32]) -> usize
    ensures { PlainPut ys.now result out.old out.new }
{
    let mut n = put_eights(out, ys);
    while n < ys.len() && n < out.len() && plain(ys[n]) {
        out[n] = ys[n] as u8;
        n += 1;
    }
    n
}
