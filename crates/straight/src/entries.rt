// The entries of a policy's lists judged and held in one walk.
ghost use Rattle.syntax.specs.Forms.{symbols_of};
ghost use Rattle.syntax.specs.Members.{then, characters_of, one_or_more};
ghost use Rattle.syntax.specs.PolicyLayout.{sid_of, action_of, resource_of, number_of_json};
ghost use Rattle.held.specs.Held.{held_text, held_number, held_value, held_list};
ghost use Rattle.parts.specs.Room.{Roomy};
ghost use Rattle.parts.specs.Holding.{entry_of};
ghost use Rattle.straight.specs.Taking.{Takes, TakesSeveral};

use crate::{marks, strings};
use parts::entries::Entry;
use parts::holding;
use parts::holding::{Ended, Listed};
use parts::words::Operator;
use syntax::{forms, numbers, symbols};

// More entries than a run has numbers are not counted.
const MOST: usize = 16384;

pub fn sid(s: &[u8], v: usize, run: &mut [u32], at: usize) -> Option<Ended>
    requires { Roomy run.old at 0 }
    ensures { Takes held_text sid_of 0 s.now run.old run.new v at result }
{
    let h = strings::string(s, v, run, at)?;
    let first = at + 1;
    if !forms::is_sid(&run[first..h.past]) {
        return None;
    }
    Some(h)
}

// An Action entry, its wildcards apart from every character.
fn action(s: &[u8], v: usize, run: &mut [u32], at: usize) -> Option<Ended>
    requires { Roomy run.old at 0 }
    ensures { Takes held_text action_of 0 s.now run.old run.new v at result }
{
    let h = strings::string(s, v, run, at)?;
    let first = at + 1;
    if !forms::is_action(&run[first..h.past]) {
        return None;
    }
    symbols::wildcards(&mut run[first..h.past]);
    Some(h)
}

// A text with its escapes resolved, its wildcards apart where there are some.
fn escaped(s: &[u8], v: usize, run: &mut [u32], at: usize, wild: bool) -> Option<Ended>
    requires { Roomy run.old at 0 }
    ensures { Takes held_text (λ t. then (characters_of t) (symbols_of wild)) 0 s.now run.old run.new v at result }
{
    let Ended { past, end } = strings::string(s, v, run, at)?;
    let first = at + 1;
    let n = symbols::symbols(&mut run[first..past], wild)?;
    run[at] = n as u32;
    Some(Ended {
        past: first + n,
        end,
    })
}

fn resource(s: &[u8], v: usize, run: &mut [u32], at: usize) -> Option<Ended>
    requires { Roomy run.old at 0 }
    ensures { Takes held_text resource_of 0 s.now run.old run.new v at result }
{
    let h = escaped(s, v, run, at, true)?;
    let first = at + 1;
    if !forms::is_resource(&run[first..h.past]) {
        return None;
    }
    Some(h)
}

// A number that is written as a string.
fn quoted_number(s: &[u8], v: usize, run: &mut [u32], at: usize) -> Option<Ended>
    requires { Roomy run.old at 0 }
    ensures { Takes held_number number_of_json 0 s.now run.old run.new v at result }
{
    let Ended { past, end } = strings::string(s, v, run, at)?;
    let first = at + 1;
    let n = numbers::number_in(&run[first..past])?;
    if run.len() - at < 2 {
        return None;
    }
    Some(Ended {
        past: holding::put_number(run, at, n),
        end,
    })
}

// A number that stands as a JSON number.
fn plain_number(s: &[u8], v: usize, run: &mut [u32], at: usize) -> Option<Ended>
    requires { Roomy run.old at 0 }
    ensures { Takes held_number number_of_json 0 s.now run.old run.new v at result }
{
    if s.len() <= v {
        return None;
    }
    let Ok(end) = text::numbers::unsigned(s, v) else {
        return None;
    };
    let n = numbers::number_spelt(&s[v..end])?;
    if run.len() - at < 2 {
        return None;
    }
    Some(Ended {
        past: holding::put_number(run, at, n),
        end,
    })
}

// A number, told by its first byte.
fn number(s: &[u8], v: usize, run: &mut [u32], at: usize) -> Option<Ended>
    requires { Roomy run.old at 0 }
    ensures { Takes held_number number_of_json 0 s.now run.old run.new v at result }
{
    if s.len() <= v {
        return None;
    }
    match s[v] {
        b'0'..=b'9' => plain_number(s, v, run, at),
        _ => quoted_number(s, v, run, at),
    }
}

fn value(s: &[u8], v: usize, run: &mut [u32], at: usize, o: Operator) -> Option<Ended>
    requires { Roomy run.old at 0 }
    ensures { Takes held_value (entry_of (Entry.Value o)) 0 s.now run.old run.new v at result }
{
    match o {
        Operator::StringEquals => escaped(s, v, run, at, false),
        Operator::StringLike => escaped(s, v, run, at, true),
        Operator::NumericLessThanEquals => number(s, v, run, at),
    }
}

fn entry(s: &[u8], v: usize, run: &mut [u32], at: usize, k: Entry) -> Option<Ended>
    requires { Roomy run.old at 0 }
    ensures { Takes held_value (entry_of k) 0 s.now run.old run.new v at result }
{
    match k {
        Entry::Action => action(s, v, run, at),
        Entry::Resource => resource(s, v, run, at),
        Entry::Value(o) => value(s, v, run, at, o),
    }
}

// The entries of a list of at least one.
fn listed(s: &[u8], v: usize, run: &mut [u32], at: usize, k: Entry) -> Option<Listed>
    requires { Roomy run.old at 0 }
    ensures { TakesSeveral held_value (one_or_more (entry_of k)) 1 s.now run.old run.new v at result }
{
    let mut i = marks::opened(s, v, b'[')?;
    let mut past = at;
    let mut count = 0usize;
    loop {
        let h = entry(s, i, run, past, k)?;
        past = h.past;
        count += 1;
        let Some(next) = marks::parted(s, h.end, b',') else {
            let end = marks::closed(s, h.end, b']')?;
            return Some(Listed { past, end, count });
        };
        i = next;
    }
}

// One entry, behind the number of entries.
fn lone(s: &[u8], v: usize, run: &mut [u32], at: usize, k: Entry) -> Option<Ended>
    requires { Roomy run.old at 0 }
    ensures { Takes (held_list held_value) (one_or_more (entry_of k)) 1 s.now run.old run.new v at result }
{
    if run.len() <= at {
        return None;
    }
    let h = entry(s, v, run, at + 1, k)?;
    run[at] = 1;
    Some(h)
}

// One entry or a list of at least one, behind their number.
pub fn entries(s: &[u8], v: usize, run: &mut [u32], at: usize, k: Entry) -> Option<Ended>
    requires { Roomy run.old at 0 }
    ensures { Takes (held_list held_value) (one_or_more (entry_of k)) 1 s.now run.old run.new v at result }
{
    if s.len() <= v {
        return None;
    }
    if s[v] != b'[' {
        return lone(s, v, run, at, k);
    }
    if run.len() <= at {
        return None;
    }
    let Listed { past, end, count } = listed(s, v, run, at + 1, k)?;
    if MOST < count {
        return None;
    }
    run[at] = count as u32;
    Some(Ended { past, end })
}
