// The constants of the key schedule (002, section 2.3.1), and which of them each step takes (its tables 1 to 3).
ghost use Rattle.std.specs.Prelude.{◌≡◌, ◌+◌, ◌/◌, ◌<◌, get_or};
ghost use Rattle.words.specs.KeyLength.{KeyLength};
ghost use Rattle.hierocrypt3_tables.specs.Constants.{row, constant};

// G0(0) to G0(5), of H0 to H3.
pub const G0: [[u8; 8]; 6] = [
    [0xca, 0x62, 0xc1, 0xd6, 0x5a, 0x82, 0x79, 0x99],
    [0x8f, 0x1b, 0xbc, 0xdc, 0x6e, 0xd9, 0xeb, 0xa1],
    [0x6e, 0xd9, 0xeb, 0xa1, 0xca, 0x62, 0xc1, 0xd6],
    [0x5a, 0x82, 0x79, 0x99, 0x8f, 0x1b, 0xbc, 0xdc],
    [0x8f, 0x1b, 0xbc, 0xdc, 0xca, 0x62, 0xc1, 0xd6],
    [0x6e, 0xd9, 0xeb, 0xa1, 0x5a, 0x82, 0x79, 0x99],
];

// What a key of 16 bytes is padded with, and one of 24 (section 2.3.2).
pub const H3_H2: [u8; 8] = [0xca, 0x62, 0xc1, 0xd6, 0x8f, 0x1b, 0xbc, 0xdc];

pub const H2_H3: [u8; 8] = [0x8f, 0x1b, 0xbc, 0xdc, 0xca, 0x62, 0xc1, 0xd6];

// Which G0 is the constant of step 1, 2, .. for a key of 16, 24 and 32 bytes.
const ROW_16: [usize; 7] = [0, 1, 2, 3, 3, 2, 1];

const ROW_24: [usize; 8] = [1, 0, 3, 2, 2, 3, 0, 1];

const ROW_32: [usize; 9] = [4, 0, 2, 1, 3, 3, 1, 2, 0];

// The length of a key in bytes: 16, 24 or 32.
#[derive(Clone, Copy)]
pub struct Length {
    pub bytes: usize,
    ghost legal: { KeyLength bytes },
}

impl Length {
    pub fn new(bytes: usize) -> Self
        requires { KeyLength bytes }
        ensures { result.bytes ≡ bytes }
    {
        Length { bytes }
    }
}

// Which G0 is the constant of step t + 1.
fn row_at(length: Length, t: usize) -> usize
    requires { t < length.bytes / 8 + 5 }
    ensures { (result ≡ get_or (row length.bytes) t 0) × (result < 6) }
{
    if length.bytes == 16 {
        return ROW_16[t];
    }
    if length.bytes == 24 {
        return ROW_24[t];
    }
    ROW_32[t]
}

// The constant of step t + 1.
pub fn constant(length: Length, t: usize) -> [u8; 8]
    requires { t < length.bytes / 8 + 5 }
    ensures { result ≡ constant length.bytes (t + 1) }
{
    G0[row_at(length, t)]
}
