// Numbers copied within a slice.
ghost use Rattle.std.specs.Prelude.{◌+◌, ◌≤◌, ◌⊎◌, length};
ghost use Rattle.report_lines_write.specs.CopyLaws.{NumbersCopied};

// Copies n numbers from one place of the slice to another; the two parts do not meet.
pub(crate) fn copy(w: &mut [u32], from: usize, to: usize, n: usize)
    requires { (from + n ≤ length w.old) × (to + n ≤ length w.old) × ((from + n ≤ to) ⊎ (to + n ≤ from)) }
    ensures { NumbersCopied w.old from to n w.new }
{
    w.copy_within(from..from + n, to);
}
