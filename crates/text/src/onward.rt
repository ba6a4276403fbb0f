// The rest of a list or an object, for whoever has read its beginning: what is owed is judged as the scan judges it.
ghost use Rattle.std.specs.Prelude.{[], ◌∷◌, ◌++◌, ◌≤◌, length};
ghost use Rattle.text.specs.Machine.{ws, next, before, inner};
ghost use Rattle.text.specs.Reading.{Goes};

use crate::fault::Fault;
use crate::scan;
use crate::scan::{Next, Shape};

// What follows an inner value that ends at a place, up to the end of its list or object; inner values may open so many
// levels.
pub fn rest(s: &[u8], at: usize, shape: Shape, left: usize) -> Result<usize, Fault>
    requires { at ≤ length s.now }
    ensures { Goes s.now (ws ∷ next shape left ∷ []) at result }
{
    let mut i = at;
    loop {
        match scan::follow(s, i, shape)? {
            Next::Inner(m) => {
                i = scan::value(s, m, left)?;
            }
            Next::Closed(e) => {
                return Ok(e);
            }
        }
    }
}

// The members of an object from a name on, up to its end.
pub fn members(s: &[u8], at: usize, left: usize) -> Result<usize, Fault>
    requires { at ≤ length s.now }
    ensures { Goes s.now (before Shape.Object ++ inner Shape.Object left) at result }
{
    let v = scan::heading(s, at, Shape::Object)?;
    let e = scan::value(s, v, left)?;
    rest(s, e, Shape::Object, left)
}
