// Whether a row holds what its entry can have.
ghost use Rattle.std.specs.Prelude.{◌≡◌, length, get_or, drop, ◌+◌, ◌*◌, ◌≤◌, Bool, leb};
ghost use Rattle.syntax.specs.Policy.{StringLike, Value};
ghost use Rattle.candidates.specs.Kinds.{only, bounds};
ghost use Rattle.candidates.specs.Entries.{comparison, wild_kind};
ghost use Rattle.candidates.specs.Places.{place_is};
ghost use Rattle.candidates.specs.Rows.{row_numbers, is_zero, number_in, is_row};

use crate::kinds::Wild;
use crate::places::Place;
use crate::{legality, rows};
use decision::matching;
use held::limits;

// Is a row zero from a place on?
fn is_zero_from(row: &[u32], from: usize) -> bool
    requires { from ≤ length row.now }
    ensures { result ≡ is_zero (drop from row.now) }
{
    rows::is_zero(&row[from..])
}

// A row that holds a single text.
fn fits_single(place: Place, ys: &[u32], row: &[u32]) -> bool
    requires { length row.now ≡ row_numbers }
    ensures { comparison (place_is place) ≡ StringLike → get_or row.now 0 0 ≡ 2 → result ≡ is_row (wild_kind (place_is place) ys.now) row.now }
{
    let n = row[1] as usize;
    if n > limits::ENTRY {
        return false;
    }
    let to = n + 2;
    match Wild::of(ys) {
        Wild::Without => false,
        Wild::FinalStar(_) | Wild::Others => {
            is_zero_from(row, to)
                && matching::matches(ys, &row[2..to])
                && legality::legal_text(place, &row[2..to])
        }
    }
}

// A row that holds a beginning.
fn fits_beginning(place: Place, ys: &[u32], row: &[u32]) -> bool
    requires { length row.now ≡ row_numbers }
    ensures { get_or row.now 0 0 ≡ 3 → result ≡ is_row (wild_kind (place_is place) ys.now) row.now }
{
    let n = row[1] as usize;
    if n > limits::ENTRY {
        return false;
    }
    let to = n + 2;
    match Wild::of(ys) {
        Wild::FinalStar(star) => {
            is_zero_from(row, to) && legality::legal_beginning(place, &ys[..star], &row[2..to])
        }
        Wild::Without | Wild::Others => false,
    }
}

// Can the entry ys at a place have this row?
pub fn fits_wild(place: Place, ys: &[u32], row: &[u32]) -> bool
    requires { length row.now ≡ row_numbers }
    ensures { comparison (place_is place) ≡ StringLike → result ≡ is_row (wild_kind (place_is place) ys.now) row.now }
{
    match row[0] {
        rows::EMPTY => rows::is_zero(row),
        rows::ITSELF => is_zero_from(row, 1),
        rows::SINGLE => fits_single(place, ys, row),
        rows::BEGINNING => fits_beginning(place, ys, row),
        _ => false,
    }
}

// Can an entry that is compared with a text have this row: nothing, or the entry itself?
pub fn fits_only(row: &[u32]) -> bool
    requires { length row.now ≡ row_numbers }
    ensures { (m : Value → Bool) → result ≡ is_row (only m) row.now }
{
    match row[0] {
        rows::EMPTY => rows::is_zero(row),
        rows::ITSELF => is_zero_from(row, 1),
        _ => false,
    }
}

fn whole(upper: u32, lower: u32) -> u64
    ensures { result ≡ upper * 4294967296 + lower }
{
    upper as u64 * limits::HALF + lower as u64
}

// The number that a row holds by its halves.
pub fn number_in(row: &[u32]) -> u64
    requires { length row.now ≡ row_numbers }
    ensures { result ≡ number_in row.now }
{
    whole(row[1], row[2])
}

// Can an entry that bounds by n have this row?
pub fn fits_bound(n: u64, row: &[u32]) -> bool
    requires { length row.now ≡ row_numbers }
    ensures { result ≡ is_row (bounds leb n) row.now }
{
    match row[0] {
        rows::EMPTY => rows::is_zero(row),
        rows::NUMBER => is_zero_from(row, 3) && number_in(row) <= n,
        _ => false,
    }
}
