// Rows of a room, each handled as the note of its entry tells.
ghost use Rattle.std.specs.Prelude.{◌≡◌, true, List, length, ℕ};
ghost use Rattle.syntax.specs.Policy.{Value, text};
ghost use Rattle.held.specs.Held.{held_value};
ghost use Rattle.held.specs.Lying.{Lies};
ghost use Rattle.decision.specs.Decision.{Found, found};
ghost use Rattle.candidates.specs.Candidates.{Covered};
ghost use Rattle.candidates.specs.Entries.{Place, meets_at, wild_kind};
ghost use Rattle.candidates.specs.Rows.{row_numbers, content_of};
ghost use Rattle.candidates.specs.Joining.{Texted};
ghost use Rattle.rooms.specs.Rooms.{Slot, row_fits, fits, row_fed, fed, row_met, met};
ghost use Rattle.rooms.specs.Listing.{SlotAt, Valued, Told};
ghost use Rattle.rooms.specs.Walking.{Slotted, Chargeable, RowCharged, RightAt, RowFed, RowsMeet};
ghost use Rattle.rooms.specs.Walking.{Right, Roomy, Fed, Met};

use crate::listing::{Handling, Note};
use candidates::{beginnings, bounding, fitting, joining, rows};
use held::places;
use syntax::forms;

// Can an entry have this row?
fn fits_row(run: &[u32], note: Note, row: &[u32]) -> bool
    requires { (Slotted run.now note) × (length row.now ≡ row_numbers) }
    ensures { (s : Slot) → SlotAt run.now note s → result ≡ row_fits s row.now }
{
    match note.handling {
        Handling::Nothing => rows::is_zero(row),
        Handling::Itself => fitting::fits_only(row),
        Handling::Number => fitting::fits_bound(places::number_at(run, note.entry), row),
        Handling::Wild => {
            let from = note.entry + 1;
            let to = from + run[note.entry] as usize;
            fitting::fits_wild(note.place, &run[from..to], row)
        }
    }
}

// Does a row of an entry that is matched by its wildcards cover the text v, which the entry matches?
fn covers(row: &[u32], v: &[u32]) -> bool
    requires { Texted row.now }
    ensures { (p : Place) (ys : List ℕ) → meets_at p (text ys) (text v.now) ≡ true → result ≡ true → Covered (wild_kind p ys) (content_of row.now) (text v.now) }
{
    let to = row[1] as usize + 2;
    match row[0] {
        rows::BEGINNING => beginnings::begins(&row[2..to], v),
        rows::SINGLE => forms::same_text(&row[2..to], v),
        rows::ITSELF => true,
        _ => false,
    }
}

// A value charged to an entry's row, if it is not covered yet.
fn charge_row(run: &[u32], note: Note, request: &[u32], v: usize, row: &mut [u32])
    requires { RowCharged run.now note request.now v row.old }
    ensures { (s : Slot) (y : Value) → SlotAt run.now note s → Lies request.now v (held_value y) → Chargeable s y → row_fits s row.old ≡ true → row.new ≡ row_fed s (found y) row.old }
{
    match note.handling {
        Handling::Nothing => {}
        Handling::Itself => rows::put_mark(row, rows::ITSELF),
        Handling::Number => bounding::charge_bound(places::number_at(request, v), row),
        Handling::Wild => {
            let from = note.entry + 1;
            let to = from + run[note.entry] as usize;
            let a = v + 1;
            let b = a + request[v] as usize;
            if !covers(row, &request[a..b]) {
                joining::charge_wild(note.place, &run[from..to], &request[a..b], row);
            }
        }
    }
}

// The value that a note tells of charged to its entry's row, if there is one.
fn feed_row(run: &[u32], note: Note, request: &[u32], row: &mut [u32])
    requires { RowFed run.now note request.now row.old }
    ensures { (s : Slot) (f : Found) → SlotAt run.now note s → Valued request.now note.value f → RightAt s f → row_fits s row.old ≡ true → row.new ≡ row_fed s f row.old }
{
    if let Some(v) = note.value {
        charge_row(run, note, request, v, row);
    }
}

// Two rows of an entry joined, in the first.
fn join_row(run: &[u32], note: Note, row: &mut [u32], other: &[u32])
    requires { RowsMeet run.now note row.old other.now }
    ensures { (s : Slot) → SlotAt run.now note s → row_fits s row.old ≡ true → row_fits s other.now ≡ true → row.new ≡ row_met s row.old other.now }
{
    match note.handling {
        Handling::Number => bounding::join_bound(row, other),
        Handling::Wild => {
            let from = note.entry + 1;
            let to = from + run[note.entry] as usize;
            joining::join_wild(note.place, &run[from..to], row, other);
        }
        Handling::Nothing | Handling::Itself => {
            if other[0] != rows::EMPTY {
                rows::put_mark(row, rows::ITSELF);
            }
        }
    }
}

// Does a room hold what a policy's room can, by the notes of its entries?
pub fn fits_room(run: &[u32], notes: &[Note], room: &[u32]) -> bool
    requires { Roomy run.now run.now notes.now room.now }
    ensures { (ss : List Slot) (fs : List Found) → Told run.now run.now notes.now ss fs → result ≡ fits ss room.now }
{
    let mut a = 0usize;
    for note in notes {
        let to = a + rows::NUMBERS;
        if !fits_row(run, *note, &room[a..to]) {
            return false;
        }
        a = to;
    }
    rows::is_zero(&room[a..])
}

// The values that the notes tell of, charged to the rows of their entries; no other row is written.
pub fn feed_room(run: &[u32], request: &[u32], notes: &[Note], room: &mut [u32])
    requires { Fed run.now request.now notes.now room.old }
    ensures { (ss : List Slot) (fs : List Found) → Told run.now request.now notes.now ss fs → Right ss fs → fits ss room.old ≡ true → room.new ≡ fed ss fs room.old }
{
    let mut a = 0usize;
    for note in notes {
        let to = a + rows::NUMBERS;
        feed_row(run, *note, request, &mut room[a..to]);
        a = to;
    }
}

// Two rooms joined row by row, in the first.
pub fn join_room(run: &[u32], notes: &[Note], room: &mut [u32], other: &[u32])
    requires { Met run.now run.now notes.now room.old other.now }
    ensures { (ss : List Slot) (fs : List Found) → Told run.now run.now notes.now ss fs → fits ss room.old ≡ true → fits ss other.now ≡ true → room.new ≡ met ss room.old other.now }
{
    let mut a = 0usize;
    for note in notes {
        let to = a + rows::NUMBERS;
        join_row(run, *note, &mut room[a..to], &other[a..to]);
        a = to;
    }
}
