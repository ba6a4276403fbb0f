// Beginnings of texts, counted in characters.
ghost use Rattle.std.specs.Prelude.{◌≡◌, length};
ghost use Rattle.candidates.specs.Beginnings.{begins, shared};

// Does t begin with q?
pub fn begins(q: &[u32], t: &[u32]) -> bool
    ensures { result ≡ begins q.now t.now }
{
    t.starts_with(q)
}

// How many characters the two texts share from the beginning on.
pub fn shared(s: &[u32], t: &[u32]) -> usize
    ensures { result ≡ length (shared s.now t.now) }
{
    s.iter().zip(t).take_while(|(x, c)| **x == **c).count()
}
