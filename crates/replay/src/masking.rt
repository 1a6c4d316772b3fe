// Small letters in answers of the Rust, which reads none: what it says of capitals holds of these too.
use text_lines::more;

// A letter made small, where it is to be.
fn masked(b: u8, hit: bool) -> u8 {
    if hit & letters::is_capital(b) {
        b | 32
    } else {
        b
    }
}

// How many blanks stand before the next byte of its line.
fn blanks_behind(b: u8, blanks: u32) -> u32 {
    match b {
        b'\n' => 0,
        b' ' => more(blanks),
        _ => blanks,
    }
}

// Makes every second letter small in column k of each line, counted from 0.
pub(crate) fn mask(s: &mut [u8], k: u32) {
    let mut blanks: u32 = 0;
    let mut second = false;
    for b in s.iter_mut() {
        let was = *b;
        *b = masked(was, second & (blanks == k));
        second = !second;
        blanks = blanks_behind(was, blanks);
    }
}
