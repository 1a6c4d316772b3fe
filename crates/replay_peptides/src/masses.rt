// Base masses. A line is the letters, and the bits of the mass that the Rust gives them, in hexadecimal.
use text_fields::{Verdict, hex_at, letter_count};

// The Rust's masses of A to Z, and of water.
const MASSES: [f32; 26] = [
    71.03711, 0.0, 103.00919, 115.02694, 129.04259, 147.0684, 57.02146, 137.05891, 113.08406, 0.0,
    128.09496, 113.08406, 131.0405, 114.04293, 237.14774, 97.05276, 128.05858, 156.1011, 87.03203,
    101.04768, 150.95363, 99.06841, 186.07932, 0.0, 163.06332, 0.0,
];

const WATER: f32 = 18.010565;

// Whether a mass has these bits: those of a finite number that is not negative.
fn has_bits(mass: f32, bits: u32) -> bool {
    if bits < 0x7f80_0000 {
        return mass == f32::from_bits(bits);
    }
    false
}

pub fn replay_mass(line: &[u8]) -> Verdict {
    let n = letter_count(line);
    let bits = hex_at(line, 1);
    let masses = MASSES;
    match peptide::base_mass(&line[0..n], &masses, WATER) {
        Ok(mass) => Verdict::of(has_bits(mass, bits)),
        Err(_) => Verdict::Differs,
    }
}
