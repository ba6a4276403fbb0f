// What a row comes to hold.
ghost use Rattle.std.specs.Prelude.{◌≡◌, length, ◌≤◌};
ghost use Rattle.syntax.specs.Policy.{text};
ghost use Rattle.candidates.specs.Candidates.{holds};
ghost use Rattle.candidates.specs.Beginnings.{longest};
ghost use Rattle.candidates.specs.Entries.{legal_beginning, wild_kind};
ghost use Rattle.candidates.specs.Places.{place_is};
ghost use Rattle.candidates.specs.Rows.{row_numbers, text_characters, row};

use crate::kinds::Wild;
use crate::places::Place;
use crate::{legality, rows};

// The longest beginning of t that is legal and longer than b, with its star; or the entry itself.
pub fn put_longest(place: Place, b: &[u32], t: &[u32], out: &mut [u32])
    requires { (length out.old ≡ row_numbers) × (length t.now ≤ text_characters) }
    ensures { out.new ≡ row (holds (longest (legal_beginning (place_is place) b.now) t.now)) }
{
    for n in (1..=t.len()).rev() {
        if legality::legal_beginning(place, b, &t[..n]) {
            rows::put_text(out, rows::BEGINNING, &t[..n]);
            return;
        }
    }
    rows::put_mark(out, rows::ITSELF);
}

// What one text generalises to, for an entry that is matched by its wildcards.
pub fn put_least(place: Place, ys: &[u32], v: &[u32], out: &mut [u32])
    requires { (length out.old ≡ row_numbers) × (length v.now ≤ text_characters) }
    ensures { out.new ≡ row (holds ((wild_kind (place_is place) ys.now).least (text v.now))) }
{
    match Wild::of(ys) {
        Wild::Without => rows::put_mark(out, rows::ITSELF),
        _ if legality::legal_text(place, v) => rows::put_text(out, rows::SINGLE, v),
        Wild::FinalStar(star) => put_longest(place, &ys[..star], v, out),
        Wild::Others => rows::put_mark(out, rows::ITSELF),
    }
}
