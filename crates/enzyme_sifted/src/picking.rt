// The sites whose codes were seen twice.
ghost use Rattle.std.specs.Prelude.{◌≡◌, cond, ◌+◌, ◌≤◌, ◌<◌, length};
ghost use Rattle.enzyme_sifted.specs.Sifted.{seen_twice, RepeatsPicked};

// Whether a code was seen twice. Codes past the table's end were not counted: each may have been.
fn seen_twice(seen: &[u8], code: u16) -> bool
    ensures { result ≡ seen_twice seen.now code }
{
    match seen.get(usize::from(code)) {
        Some(&n) => 2 <= n,
        None => true,
    }
}

// Writes those of the first m sites whose codes were seen twice to the front of order; says how many there are.
pub(crate) fn pick(codes: &[u16], seen: &[u8], m: usize, order: &mut [u16]) -> usize
    requires { (m ≤ 65536) × (m ≤ length order.old) × (m ≤ length codes.now) }
    ensures { RepeatsPicked codes.now seen.now order.new m result }
{
    let mut k = 0;
    for z in 0..m {
        let more = seen_twice(seen, codes[z]);
        order[k] = z as u16;
        k = enzyme_rows::after(k, more);
    }
    k
}
