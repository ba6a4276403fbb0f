// White space.
ghost use Rattle.std.specs.Prelude.{true, [], ◌∷◌, ◌≡◌, ◌+◌, ◌≤◌, length};
ghost use Rattle.text.specs.Machine.{ws};
ghost use Rattle.text.specs.Reading.{Leads, Blank};

// Is it white space? As one test of bits, not one for each.
pub fn blank(b: u8) -> bool
    ensures { Blank b result }
{
    (b == b'\t') | (b == b'\n') | (b == b'\r') | (b == b' ')
}

// Are the four bytes from a place on spaces? Without branches, so that they are tested as one.
fn four_spaces(s: &[u8], at: usize) -> bool
    requires { at + 4 ≤ length s.now }
    ensures { result ≡ true → Leads s.now (ws ∷ []) at (ws ∷ []) (at + 4) }
{
    let mut all = true;
    for j in 0..4 {
        all &= s[at + j] == b' ';
    }
    all
}

// Past some spaces, four by four.
pub fn spaces(s: &[u8], at: usize) -> usize
    requires { at ≤ length s.now }
    ensures { Leads s.now (ws ∷ []) at (ws ∷ []) result }
{
    let mut i = at;
    while 4 <= s.len() - i {
        if !four_spaces(s, i) {
            return i;
        }
        i += 4;
    }
    i
}
