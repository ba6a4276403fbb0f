// What is legal in a list: a single text, and a beginning with a final star.
ghost use Rattle.std.specs.Prelude.{◌≡◌, length, ◌<◌};
ghost use Rattle.syntax.specs.Forms.{all};
ghost use Rattle.candidates.specs.Entries.{is_scalar, is_plain, legal_text, legal_beginning};
ghost use Rattle.candidates.specs.Places.{place_is, form_of, star_of, Starts};

use crate::beginnings;
use crate::places::Place;
use held::limits;
use syntax::forms;

fn is_scalar(c: u32) -> bool
    ensures { result ≡ is_scalar c }
{
    matches!(c, 0..=55295 | 57344..=1114111)
}

// Does a character stand for itself in a list? In Action * and ? do not.
fn is_plain(place: Place, c: u32) -> bool
    ensures { result ≡ is_plain (place_is place) c }
{
    match (place, c) {
        (Place::Action, 42 | 63) => false,
        _ => is_scalar(c),
    }
}

fn all_plain(place: Place, cs: &[u32]) -> bool
    ensures { result ≡ all (is_plain (place_is place)) cs.now }
{
    cs.iter().all(|c| is_plain(place, *c))
}

// The form of a list, of characters that stand for themselves; where a star follows them, it is * in Action.
fn has_form(place: Place, cs: &[u32]) -> bool
    ensures { result ≡ form_of (place_is place) cs.now }
{
    match place {
        Place::Action => forms::is_action(cs),
        Place::Resource => forms::is_resource(cs),
        Place::Row(_) => true,
    }
}

// Is a single text legal in a list?
pub fn legal_text(place: Place, t: &[u32]) -> bool
    ensures { result ≡ legal_text (place_is place) t.now }
{
    all_plain(place, t) && t.len() <= limits::ENTRY && has_form(place, t)
}

fn star_of(place: Place) -> u32
    ensures { result ≡ star_of (place_is place) }
{
    match place {
        Place::Action => 42,
        Place::Resource | Place::Row(_) => forms::STAR,
    }
}

// A text, and the star that a list has behind it.
fn put_starred(place: Place, q: &[u32], ys: &mut [u32])
    requires { length q.now < length ys.old }
    ensures { Starts q.now (star_of (place_is place)) ys.old ys.new }
{
    ys[..q.len()].copy_from_slice(q);
    ys[q.len()] = star_of(place);
}

// Is the text b, made longer to q and then *, legal in a list?
pub fn legal_beginning(place: Place, b: &[u32], q: &[u32]) -> bool
    ensures { result ≡ legal_beginning (place_is place) b.now q.now }
{
    if q.len() <= b.len()
        || q.len() >= limits::ENTRY
        || !beginnings::begins(b, q)
        || !all_plain(place, q)
    {
        return false;
    }
    let mut ys = [0u32; 256];
    put_starred(place, q, &mut ys);
    has_form(place, &ys[..q.len() + 1])
}
