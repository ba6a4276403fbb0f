// Rows of entries that bound: charged, and joined.
ghost use Rattle.std.specs.Prelude.{◌≡◌, leb, ℕ};
ghost use Rattle.syntax.specs.Policy.{number};
ghost use Rattle.candidates.specs.Candidates.{Content, joined, charged};
ghost use Rattle.candidates.specs.Kinds.{bounds};
ghost use Rattle.candidates.specs.Rows.{row};
ghost use Rattle.candidates.specs.Joining.{Numeric, Numbered};

use crate::{fitting, rows};

// A number charged to the row of an entry that bounds: the greater one is held.
pub fn charge_bound(n: u64, out: &mut [u32])
    requires { Numbered out.old }
    ensures { (k : ℕ) (c : Content) → Numeric c → out.old ≡ row c → out.new ≡ row (charged (bounds leb k) c (number n)) }
{
    if out[0] == rows::EMPTY || n >= fitting::number_in(out) {
        rows::put_number(out, rows::NUMBER, n);
    }
}

// The least bound that covers both, in the first row.
pub fn join_bound(out: &mut [u32], other: &[u32])
    requires { (Numbered out.old) × (Numbered other.now) }
    ensures { (k : ℕ) (c d : Content) → Numeric c → Numeric d → out.old ≡ row c → other.now ≡ row d → out.new ≡ row (joined (bounds leb k) c d) }
{
    if other[0] != rows::EMPTY {
        charge_bound(fitting::number_in(other), out);
    }
}
