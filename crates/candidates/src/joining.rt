// Two rows of one entry, joined.
ghost use Rattle.std.specs.Prelude.{◌≡◌, eqb, length, get_or, ◌≤◌};
ghost use Rattle.syntax.specs.Forms.{both, same};
ghost use Rattle.syntax.specs.Policy.{text};
ghost use Rattle.candidates.specs.Candidates.{Content, holds, joined, charged};
ghost use Rattle.candidates.specs.Beginnings.{shared, longest};
ghost use Rattle.candidates.specs.Entries.{legal_beginning, wild_kind};
ghost use Rattle.candidates.specs.Places.{place_is};
ghost use Rattle.candidates.specs.Rows.{text_characters, row};
ghost use Rattle.candidates.specs.Joining.{Textual, content_text, Texted};

use crate::kinds::Wild;
use crate::places::Place;
use crate::{beginnings, charging, rows};

// One row as another, number by number: the library's copying would make the archive need memmove.
fn copy(from: &[u32], to: &mut [u32])
    requires { length from.now ≡ length to.old }
    ensures { to.new ≡ from.now }
{
    for i in 0..from.len() {
        to[i] = from[i];
    }
}

// Do both rows hold one single text?
fn is_one_text(a: &[u32], b: &[u32]) -> bool
    requires { Texted a.now }
    ensures { result ≡ both (eqb (get_or a.now 0 0) 2) (same a.now b.now) }
{
    a[0] == rows::SINGLE && a == b
}

// The longest legal beginning of what the two texts share, with its star; or the entry itself.
fn put_shared(place: Place, b: &[u32], out: &mut [u32], other: &[u32])
    requires { (Texted out.old) × (Texted other.now) }
    ensures { (c d : Content) → Textual c → Textual d → out.old ≡ row c → other.now ≡ row d → out.new ≡ row (holds (longest (legal_beginning (place_is place) b.now) (shared (content_text c) (content_text d)))) }
{
    let mut held = [0u32; rows::NUMBERS];
    held.copy_from_slice(out);
    let e = held[1] as usize + 2;
    let f = other[1] as usize + 2;
    let n = beginnings::shared(&held[2..e], &other[2..f]);
    charging::put_longest(place, b, &held[2..n + 2], out);
}

// The rows of an entry that is matched by its wildcards: the least candidate that covers both, in the first.
pub fn join_wild(place: Place, ys: &[u32], out: &mut [u32], other: &[u32])
    requires { (Texted out.old) × (Texted other.now) }
    ensures { (c d : Content) → Textual c → Textual d → out.old ≡ row c → other.now ≡ row d → out.new ≡ row (joined (wild_kind (place_is place) ys.now) c d) }
{
    if other[0] == rows::EMPTY {
        return;
    }
    if out[0] == rows::EMPTY {
        copy(other, out);
        return;
    }
    if is_one_text(out, other) {
        return;
    }
    match Wild::of(ys) {
        Wild::FinalStar(star) => put_shared(place, &ys[..star], out, other),
        Wild::Without | Wild::Others => rows::put_mark(out, rows::ITSELF),
    }
}

// A text charged to the row of an entry that is matched by its wildcards.
pub fn charge_wild(place: Place, ys: &[u32], v: &[u32], out: &mut [u32])
    requires { (length v.now ≤ text_characters) × (Texted out.old) }
    ensures { (c : Content) → Textual c → out.old ≡ row c → out.new ≡ row (charged (wild_kind (place_is place) ys.now) c (text v.now)) }
{
    let mut least = [0u32; rows::NUMBERS];
    charging::put_least(place, ys, v, &mut least);
    join_wild(place, ys, out, &least);
}
