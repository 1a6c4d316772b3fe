// Marks set to zeros.
ghost use Rattle.std.specs.Prelude.{◌≡◌, length, replicate};

pub fn clear_marks(marks: &mut [u8])
    ensures { marks.new ≡ replicate (length marks.old) 0 }
{
    marks.fill(0);
}
