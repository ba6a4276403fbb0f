// One row of a room: what it holds, in one encoding for each content.
ghost use Rattle.std.specs.List.{fold};
ghost use Rattle.std.specs.Prelude.{◌≡◌, [], ◌∷◌, length, replicate, ◌≤◌, bit_or};
ghost use Rattle.candidates.specs.Rows.{row_numbers, text_characters, padded, text_row, number_row, is_zero};

use held::limits;

// How many numbers a row has.
pub const NUMBERS: usize = 256;

// What stands first in a row tells what it holds: nothing, the entry itself, a single text, a beginning, a number.
pub const EMPTY: u32 = 0;

pub const ITSELF: u32 = 1;

pub const SINGLE: u32 = 2;

pub const BEGINNING: u32 = 3;

pub const NUMBER: u32 = 4;

// All numbers put together.
fn joined(block: &[u32]) -> u32
    ensures { result ≡ fold bit_or 0 block.now }
{
    block.iter().fold(0, |any, x| any | *x)
}

// Are the numbers of a block zero? They are put together, and tested once. A whole row is asked for by its length: with
// that known, its numbers are put together by one run of instructions, and a room is tested in half as many.
fn is_zero_block(block: &[u32]) -> bool
    ensures { result ≡ is_zero block.now }
{
    if block.len() == NUMBERS {
        return joined(block) == 0;
    }
    joined(block) == 0
}

// Is all of it zero? It is looked at a whole row at a time.
pub fn is_zero(row: &[u32]) -> bool
    ensures { result ≡ is_zero row.now }
{
    row.chunks(NUMBERS).all(|block| is_zero_block(block))
}

// All of it zero.
pub fn clear(row: &mut [u32])
    ensures { row.new ≡ replicate (length row.old) 0 }
{
    row.fill(0);
}

// A mark alone.
pub fn put_mark(row: &mut [u32], mark: u32)
    requires { length row.old ≡ row_numbers }
    ensures { row.new ≡ padded (mark ∷ []) }
{
    clear(row);
    row[0] = mark;
}

// A mark, and a text behind its length.
pub fn put_text(row: &mut [u32], mark: u32, cs: &[u32])
    requires { (length row.old ≡ row_numbers) × (length cs.now ≤ text_characters) }
    ensures { row.new ≡ text_row mark cs.now }
{
    put_mark(row, mark);
    row[1] = cs.len() as u32;
    row[2..cs.len() + 2].copy_from_slice(cs);
}

// A mark, and a number by its halves.
pub fn put_number(row: &mut [u32], mark: u32, n: u64)
    requires { length row.old ≡ row_numbers }
    ensures { row.new ≡ number_row mark n }
{
    put_mark(row, mark);
    row[1] = (n / limits::HALF) as u32;
    row[2] = (n % limits::HALF) as u32;
}
