// The members of an object whose names a layout knows: which stand where, in one walk.
ghost use Rattle.std.specs.Prelude.{◌≡◌, ℕ};
ghost use Rattle.text.specs.Json.{Members, object};
ghost use Rattle.text.specs.Contents.{Stands, StandingObject};
ghost use Rattle.parts.specs.Slots.{words_of, which_of, as_turn, spelt, Slotted};

use text::walk;
use text::walk::Member;

// The four kinds of object with names of their own.
#[derive(Clone, Copy)]
pub enum Layout {
    Policy,
    Statement,
    Record,
    Context,
}

// The turn of a raw name among words, counted from 1.
fn turn(raw: &[u8], words: &[&[u8]]) -> Option<usize>
    ensures { result ≡ as_turn (which_of (spelt words.now) raw.now) }
{
    let k = words.iter().position(|w| chars::strings::same(raw, w))?;
    Some(k + 1)
}

// The turn of a raw name among a layout's words.
pub fn which(raw: &[u8], layout: Layout) -> Option<usize>
    ensures { result ≡ as_turn (which_of (words_of layout) raw.now) }
{
    match layout {
        Layout::Policy => turn(raw, &[b"Version", b"Statement"]),
        Layout::Statement => turn(
            raw,
            &[b"Sid", b"Effect", b"Action", b"Resource", b"Condition"],
        ),
        Layout::Record => turn(raw, &[b"ActionNames", b"ResourceArns", b"ContextEntries"]),
        Layout::Context => turn(
            raw,
            &[b"ContextKeyName", b"ContextKeyType", b"ContextKeyValues"],
        ),
    }
}

// Where the values of an object's members stand, by their word's turn; 0 for one that is absent. At 0 stands the place
// past the object, or 0 where a name is unknown or repeated.
pub fn slots(s: &[u8], v: usize, layout: Layout) -> [usize; 6]
    requires { StandingObject s.now v }
    ensures { (ms : Members) (e : ℕ) → Stands s.now (object ms) v e → Slotted s.now (words_of layout) ms e result }
{
    let mut places = [0usize; 6];
    let mut m = walk::first_member(s, v);
    loop {
        match m {
            Member::Named { name, end, value } => {
                let Some(k) = which(&s[name..end], layout) else {
                    return places;
                };
                if places[k] != 0 {
                    return places;
                }
                places[k] = value;
                let e = walk::past_value(s, value);
                m = walk::next_member(s, e);
            }
            Member::Past(e) => {
                places[0] = e;
                return places;
            }
        }
    }
}
