// The kind of an entry, by its wildcards.
ghost use Rattle.std.specs.Prelude.{◌≡◌, eqb};
ghost use Rattle.syntax.specs.Policy.{star, any};
ghost use Rattle.syntax.specs.Forms.{either};
ghost use Rattle.candidates.specs.Entries.{wildcards};
ghost use Rattle.candidates.specs.Places.{wild_of};

use syntax::forms;

// The wildcards of an entry: none; one, a final star, by its place; or others.
#[derive(Clone, Copy, PartialEq, Eq)]
pub enum Wild {
    Without,
    FinalStar(usize),
    Others,
}

fn is_wildcard(y: u32) -> bool
    ensures { result ≡ either (eqb y star) (eqb y any) }
{
    y == forms::STAR || y == forms::ANY
}

// How many wildcards an entry has.
fn wildcards(ys: &[u32]) -> usize
    ensures { result ≡ wildcards ys.now }
{
    ys.iter().filter(|y| is_wildcard(**y)).count()
}

impl Wild {
    pub fn of(ys: &[u32]) -> Wild
        ensures { result ≡ wild_of ys.now }
    {
        match wildcards(ys) {
            0 => Wild::Without,
            1 if ys[ys.len() - 1] == forms::STAR => Wild::FinalStar(ys.len() - 1),
            _ => Wild::Others,
        }
    }
}
