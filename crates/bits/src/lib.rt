// Bits in lent bytes, highest first in each byte: read for the words of an encoding, and put.
#![tactic(auto)]

pub mod reading;
pub mod writing;
pub mod zeros;

// The bits of a byte, and those of a window, the machine word by which runs of ones are measured.
pub const BYTE_BITS: usize = 8;

const WINDOW_BITS: usize = 64;
