// The symbols of an entry: its wildcards, and its escapes resolved.
ghost use Rattle.std.specs.Prelude.{◌≡◌, false, map, ◌<◌, length};
ghost use Rattle.syntax.specs.Forms.{wildcard, symbol, symbols_of};
ghost use Rattle.syntax.specs.Told.{is_read, Opened, NoDollar, Says, converted};

use crate::forms;

// The characters of escapes, and the two that may be wildcards.
const DOLLAR: u32 = '$' as u32;

const ASTERISK: u32 = '*' as u32;

const QUESTION: u32 = '?' as u32;

const OPENING: u32 = '{' as u32;

const CLOSING: u32 = '}' as u32;

// What stands at a place: a symbol, and the place behind what says it.
#[derive(Clone, Copy)]
struct Said {
    c: u32,
    past: usize,
}

fn wildcard(c: u32) -> u32
    ensures { result ≡ wildcard c }
{
    match c {
        ASTERISK => forms::STAR,
        QUESTION => forms::ANY,
        _ => c,
    }
}

// The * and ? of an action become wildcards.
pub fn wildcards(run: &mut [u32])
    ensures { run.new ≡ map wildcard run.old }
{
    for c in run {
        *c = wildcard(*c);
    }
}

fn symbol(c: u32, wild: bool) -> u32
    ensures { result ≡ symbol wild c }
{
    if wild { wildcard(c) } else { c }
}

// The escape that begins at a place with its two first characters; none where it is none of the three.
fn escape_at(cs: &[u32], i: usize, wild: bool) -> Option<Said>
    requires { Opened cs.now i }
    ensures { Says wild cs.now i result }
{
    if forms::character(cs, i, 3) != CLOSING {
        return None;
    }
    let c = forms::character(cs, i, 2);
    match c {
        DOLLAR | ASTERISK | QUESTION => Some(Said { c, past: i + 4 }),
        _ => None,
    }
}

fn symbol_at(cs: &[u32], i: usize, wild: bool) -> Option<Said>
    requires { i < length cs.now }
    ensures { Says wild cs.now i result }
{
    let c = cs[i];
    if c == DOLLAR && forms::character(cs, i, 1) == OPENING {
        return escape_at(cs, i, wild);
    }
    Some(Said {
        c: symbol(c, wild),
        past: i + 1,
    })
}

fn escapes_right(cs: &[u32], wild: bool) -> bool
    ensures { result ≡ is_read (symbols_of wild cs.now) }
{
    let mut i = 0;
    while i < cs.len() {
        let Some(Said { past, .. }) = symbol_at(cs, i, wild) else {
            return false;
        };
        i = past;
    }
    true
}

// The symbols of an entry, in the place of the characters that say them: how many. All escapes are looked at before the
// first store, so that a run with a wrong one stays as it was.
fn escaped_symbols(run: &mut [u32], wild: bool) -> Option<usize>
    ensures { (result, run.new) ≡ converted (symbols_of wild run.old) run.old }
{
    if !escapes_right(run, wild) {
        return None;
    }
    let mut i = 0;
    let mut n = 0;
    while i < run.len() {
        let Said { c, past } = symbol_at(run, i, wild)?;
        run[n] = c;
        n += 1;
        i = past;
    }
    Some(n)
}

// Is one of the characters a dollar? Without branches, so that many are tested at once.
fn has_dollar(cs: &[u32]) -> bool
    ensures { result ≡ false → NoDollar cs.now }
{
    let mut found = false;
    for c in cs {
        found = found | (*c == DOLLAR);
    }
    found
}

// The symbols of an entry without a dollar, and so without an escape.
fn plain_symbols(run: &mut [u32], wild: bool) -> Option<usize>
    requires { NoDollar run.old }
    ensures { (result, run.new) ≡ converted (symbols_of wild run.old) run.old }
{
    if wild {
        wildcards(run);
    }
    Some(run.len())
}

// The symbols of an entry, in the place of the characters that say them: how many; a run with a wrong escape stays as it
// was.
pub fn symbols(run: &mut [u32], wild: bool) -> Option<usize>
    ensures { (result, run.new) ≡ converted (symbols_of wild run.old) run.old }
{
    if has_dollar(run) {
        return escaped_symbols(run, wild);
    }
    plain_symbols(run, wild)
}
