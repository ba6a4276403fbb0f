// Places in a held run.
ghost use Rattle.std.specs.Prelude.{◌≡◌, ℕ, ◌+◌, ◌-◌, ◌*◌, ◌≤◌, length};
ghost use Rattle.syntax.specs.Policy.{Value};
ghost use Rattle.held.specs.Held.{held_value, held_number, mark};
ghost use Rattle.held.specs.Lying.{Lies, Lying};
ghost use Rattle.held.specs.Places.{Labelled, held_labelled};

use crate::limits;

// The place behind the text or the number at a place.
pub fn past_value(run: &[u32], at: usize) -> usize
    requires { Lying held_value run.now at }
    ensures { (x : Value) → Lies run.now at (held_value x) → result ≡ at + length (held_value x) }
{
    let n = run[at];
    if n >= limits::MARK {
        return at + 2;
    }
    at + 1 + n as usize
}

// The place behind the label of what lies at a place: a row's key, a context entry's, a statement's Sid.
pub fn behind_label(run: &[u32], at: usize) -> usize
    requires { Lying held_labelled run.now at }
    ensures { (x : Labelled) → Lies run.now at (held_labelled x) → result ≡ at + 2 + length x.label }
{
    at + 2 + run[at + 1] as usize
}

// The number of a marked upper half and a lower one.
fn whole(upper: u32, lower: u32) -> u64
    requires { mark ≤ upper }
    ensures { result ≡ (upper - mark) * 4294967296 + lower }
{
    (upper - limits::MARK) as u64 * limits::HALF + lower as u64
}

// The number that lies at a place.
pub fn number_at(run: &[u32], at: usize) -> u64
    requires { Lying held_number run.now at }
    ensures { (n : ℕ) → Lies run.now at (held_number n) → result ≡ n }
{
    whole(run[at], run[at + 1])
}
