// Parts that lie in a run one behind the other, put in the order of their turns.
ghost use Rattle.std.specs.Prelude.{List, ℕ, ◌≤◌};
ghost use Rattle.chars.specs.Base.{part};
ghost use Rattle.parts.specs.Holding.{Extends};
ghost use Rattle.objects.specs.Spans.{Spanned, Movable, InPlace, Copies, Settles};

// So many parts lie in turn one behind the other, and end before this place.
#[derive(Clone, Copy)]
pub struct Lined {
    pub count: usize,
    pub past: usize,
}

// The numbers between two places put from another place on, which is before them or behind them: where they then end.
fn moved(run: &mut [u32], from: usize, to: usize, at: usize) -> usize
    requires { Movable run.old from to at }
    ensures { Extends run.old run.new at (part run.old from to) result }
{
    run.copy_within(from..to, at);
    at + (to - from)
}

// How many parts lie in turn already, the first from a place on.
fn settled(spans: [usize; 12], last: usize, at: usize) -> Lined
    requires { last ≤ 5 }
    ensures { (run : List ℕ) → Spanned run spans last at → InPlace run spans last at result }
{
    let mut n = 0;
    let mut p = at;
    while n < last {
        let k = n + 1;
        if spans[k + k] != p {
            return Lined { count: n, past: p };
        }
        p = spans[k + k + 1];
        n = k;
    }
    Lined { count: n, past: p }
}

// The parts behind the first ones copied behind all parts, in turn: where they end, if there is room.
fn copied(run: &mut [u32], spans: [usize; 12], first: usize, last: usize) -> Option<usize>
    requires { (Spanned run.old spans last 0) × (first ≤ last) }
    ensures { Copies run.old run.new spans first last result }
{
    let mut n = first;
    let mut p = spans[1];
    while n < last {
        let k = n + 1;
        let from = spans[k + k];
        let to = spans[k + k + 1];
        if run.len() - p < to - from {
            return None;
        }
        p = moved(run, from, to, p);
        n = k;
    }
    Some(p)
}

// The parts put in turn from a place on: where they end, if there is room to do it.
pub fn settle(run: &mut [u32], spans: [usize; 12], last: usize, at: usize) -> Option<usize>
    requires { Spanned run.old spans last at }
    ensures { Settles run.old run.new spans last at result }
{
    let Lined { count, past } = settled(spans, last, at);
    if last <= count {
        return Some(past);
    }
    let end = copied(run, spans, count, last)?;
    let behind = spans[1];
    Some(moved(run, behind, end, past))
}
