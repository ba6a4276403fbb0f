// Matching of an entry's symbols and a text's characters, in constant room. Only the last star passed is remembered: in
// a match where an earlier one takes more, the last begins later, and begun here it can take what lies between as well.
ghost use Rattle.std.specs.Prelude.{◌≡◌, ◌+◌, ◌<◌, ◌^◌};
ghost use Rattle.decision.specs.Matching.{stands, matches, retry, next, Inside, Alike};

use std::ops::ControlFlow;
use syntax::forms;

// A symbol of the entry and a character of the text to be looked at, both by their places, the ends among them; the
// place behind the last star passed, 0 where none was; and the place of the text from which what follows it is tried.
#[derive(Clone, Copy)]
pub struct Place {
    pub symbol: usize,
    pub character: usize,
    pub behind: usize,
    pub tried: usize,
}

// Does a symbol that is no star stand for a character?
fn stands(x: u32, c: u32) -> bool
    ensures { result ≡ stands x c }
{
    x == forms::ANY || x == c
}

// The last star takes one character more; without a star nothing is left to try.
fn retry(at: Place) -> ControlFlow<bool, Place>
    requires { at.tried + 1 < 2 ^ 64 }
    ensures { result ≡ retry at }
{
    if at.behind == 0 {
        return ControlFlow::Break(false);
    }
    ControlFlow::Continue(Place {
        symbol: at.behind,
        character: at.tried + 1,
        behind: at.behind,
        tried: at.tried + 1,
    })
}

// One look at one symbol and one character: where to look next; or the answer.
pub fn step(entry: &[u32], text: &[u32], at: Place) -> ControlFlow<bool, Place>
    requires { Inside entry.now text.now at }
    ensures { result ≡ next entry.now text.now at }
{
    let i = at.symbol;
    let j = at.character;
    if i == entry.len() {
        if j == text.len() {
            return ControlFlow::Break(true);
        }
        if at.behind == i {
            return ControlFlow::Break(0 < i);
        }
        return retry(at);
    }
    let x = entry[i];
    if x == forms::STAR {
        return ControlFlow::Continue(Place {
            symbol: i + 1,
            character: j,
            behind: i + 1,
            tried: j,
        });
    }
    if j == text.len() {
        return ControlFlow::Break(false);
    }
    if !stands(x, text[j]) {
        return retry(at);
    }
    ControlFlow::Continue(Place {
        symbol: i + 1,
        character: j + 1,
        ..at
    })
}

// How many symbols at the beginning are no stars and the text's own characters: most of what is looked at, and needs no
// memory of a star.
fn alike(entry: &[u32], text: &[u32]) -> usize
    ensures { Alike entry.now text.now result }
{
    entry
        .iter()
        .zip(text)
        .take_while(|(x, c)| *x == *c && **x != forms::STAR)
        .count()
}

pub fn matches(entry: &[u32], text: &[u32]) -> bool
    ensures { result ≡ matches entry.now text.now }
{
    let same = alike(entry, text);
    let mut at = Place {
        symbol: same,
        character: same,
        behind: 0,
        tried: 0,
    };
    loop {
        match step(entry, text, at) {
            ControlFlow::Continue(to) => at = to,
            ControlFlow::Break(found) => return found,
        }
    }
}
