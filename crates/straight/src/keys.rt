// The keys of held context entries.
ghost use Rattle.std.specs.Prelude.{◌≡◌, List, ◌+◌, length};
ghost use Rattle.syntax.specs.Policy.{Context};
ghost use Rattle.syntax.specs.Members.{has_like};
ghost use Rattle.syntax.specs.RecordLayout.{same_context};
ghost use Rattle.held.specs.Held.{held_each, held_context};
ghost use Rattle.held.specs.Lying.{Lies, Lying, LyingMany};

use syntax::forms;

// The place behind the context entry that lies at a place.
fn past_context(run: &[u32], at: usize) -> usize
    requires { Lying held_context run.now at }
    ensures { (x : Context) → Lies run.now at (held_context x) → result ≡ at + length (held_context x) }
{
    let v = at + 2 + run[at + 1] as usize;
    if run[at] == 2 {
        return v + 2;
    }
    v + 1 + run[v] as usize
}

// Have the context entries at two places the same key?
fn same_context_at(run: &[u32], p: usize, q: usize) -> bool
    requires { (Lying held_context run.now p) × (Lying held_context run.now q) }
    ensures { (x y : Context) → Lies run.now p (held_context x) → Lies run.now q (held_context y) → result ≡ same_context x y }
{
    let from = p + 2;
    let to = from + run[p + 1] as usize;
    let a = q + 2;
    let b = a + run[q + 1] as usize;
    forms::same_key(&run[from..to], &run[a..b])
}

// Has one of the n context entries from a place on the key of the entry at p?
pub fn has_context_key(run: &[u32], at: usize, n: usize, p: usize) -> bool
    requires { (LyingMany held_context run.now at n) × (Lying held_context run.now p) }
    ensures { (xs : List Context) (x : Context) → n ≡ length xs → Lies run.now at (held_each held_context xs) → Lies run.now p (held_context x) → result ≡ has_like same_context x xs }
{
    let mut q = at;
    for _ in 0..n {
        if same_context_at(run, p, q) {
            return true;
        }
        q = past_context(run, q);
    }
    false
}
