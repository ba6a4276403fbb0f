// The rows of a condition judged and held in one walk.
ghost use Rattle.syntax.specs.PolicyLayout.{row_of, rows_of, condition_of};
ghost use Rattle.held.specs.Held.{held_row};
ghost use Rattle.parts.specs.Room.{Roomy};
ghost use Rattle.parts.specs.Spoken.{operator_is};
ghost use Rattle.straight.specs.Taking.{TakesSeveral, TakesMember};
ghost use Rattle.straight.specs.Operators.{NamesOperator};

use crate::{entries, marks, strings};
use held::runs;
use parts::entries::Entry;
use parts::holding::{Ended, Listed};
use parts::words::Operator;
use syntax::forms;

// More rows than a run has numbers are not counted.
pub const MOST: usize = 16384;

// A member whose name is an operator, with its value's place.
#[derive(Clone, Copy)]
pub struct Operated {
    pub operator: Operator,
    pub value: usize,
}

// A row: its operator, its key, its values.
fn row(s: &[u8], i: usize, run: &mut [u32], at: usize, o: Operator) -> Option<Ended>
    requires { Roomy run.old at 0 }
    ensures { TakesMember held_row (row_of (operator_is o)) 1 s.now run.old run.new i at result }
{
    if run.len() <= at {
        return None;
    }
    let key = strings::string(s, i, run, at + 1)?;
    let first = at + 2;
    if !forms::is_key(&run[first..key.past]) {
        return None;
    }
    let v = marks::parted(s, key.end, b':')?;
    let h = entries::entries(s, v, run, key.past, Entry::Value(o))?;
    run[at] = o.number();
    Some(h)
}

// The rows of one operator; no two have the same key.
fn rows(s: &[u8], v: usize, run: &mut [u32], at: usize, o: Operator) -> Option<Listed>
    requires { Roomy run.old at 0 }
    ensures { TakesSeveral held_row (rows_of (operator_is o)) 2 s.now run.old run.new v at result }
{
    let mut i = marks::opened(s, v, b'{')?;
    let mut past = at;
    let mut count = 0usize;
    loop {
        let h = row(s, i, run, past, o)?;
        if runs::has_key(run, at, count, past) {
            return None;
        }
        past = h.past;
        count += 1;
        let Some(next) = marks::parted(s, h.end, b',') else {
            let end = marks::closed(s, h.end, b'}')?;
            return Some(Listed { past, end, count });
        };
        i = next;
    }
}

// The operator that a member's name is, and where its value stands.
fn operator_at(s: &[u8], i: usize) -> Option<Operated>
    ensures { NamesOperator s.now i result }
{
    if let Some(value) = marks::named(s, i, b"StringEquals") {
        return Some(Operated {
            operator: Operator::StringEquals,
            value,
        });
    }
    if let Some(value) = marks::named(s, i, b"StringLike") {
        return Some(Operated {
            operator: Operator::StringLike,
            value,
        });
    }
    if let Some(value) = marks::named(s, i, b"NumericLessThanEquals") {
        return Some(Operated {
            operator: Operator::NumericLessThanEquals,
            value,
        });
    }
    None
}

// The rows of a condition; no operator comes twice.
pub fn condition(s: &[u8], v: usize, run: &mut [u32], at: usize) -> Option<Listed>
    requires { Roomy run.old at 0 }
    ensures { TakesSeveral held_row condition_of 3 s.now run.old run.new v at result }
{
    let mut i = marks::opened(s, v, b'{')?;
    let mut past = at;
    let mut count = 0usize;
    let mut seen = [false; 4];
    loop {
        let Operated { operator, value } = operator_at(s, i)?;
        let k = operator.number() as usize;
        if seen[k] {
            return None;
        }
        seen[k] = true;
        let h = rows(s, value, run, past, operator)?;
        if MOST - count < h.count {
            return None;
        }
        past = h.past;
        count += h.count;
        let Some(next) = marks::parted(s, h.end, b',') else {
            let end = marks::closed(s, h.end, b'}')?;
            return Some(Listed { past, end, count });
        };
        i = next;
    }
}
