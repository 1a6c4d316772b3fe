// The marks handed out.
ghost use Rattle.std.specs.Prelude.{◌+◌, ◌≤◌, ◌≡◌, eqb, get_or, length};
ghost use Rattle.lists.specs.Lists.{bit};
ghost use Rattle.cover_spec.specs.Cover.{listed};

fn mark(x: u32) -> u8
    ensures { result ≡ bit (eqb x 1) }
{
    u8::from(x == 1)
}

// A byte for each mark.
pub(crate) fn write_marks(w: &[u32], a: usize, out: &mut [u8])
    requires { a + length out.old ≤ length w.now }
    ensures { out.new ≡ listed (length out.old) (λ g. bit (eqb (get_or w.now (a + g) 0) 1)) }
{
    for i in 0..out.len() {
        out[i] = mark(w[a + i]);
    }
}
