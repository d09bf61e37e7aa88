// Ciphers and directions by number (01, 'What is built'; 02, request 2): their names in code, what is legal, and the round keys of a key.
#![tactic(auto)]

pub mod blank;

ghost use Rattle.std.specs.Prelude.{◌≡◌, true, [], ◌∷◌, length, drop};
ghost use Rattle.runs.specs.Zeros.{zeros};
ghost use Rattle.cipher_numbers.specs.Ciphers.{number, is_cipher, is_length, is_direction, member, padded};

// Numbers and no enum, since any number may be handed in (01), and each call says what it does with one that is none of these.
pub const HIEROCRYPT3: u64 = 1;

pub const E2: u64 = 2;

pub const NOEKEON: u64 = 3;

pub const NOEKEON_EARLIER: u64 = 4;

pub const ENCIPHER: u64 = 1;

pub const DECIPHER: u64 = 2;

pub fn is_cipher(cipher: u64) -> bool
    ensures { result ≡ is_cipher cipher }
{
    if cipher == HIEROCRYPT3 {
        return true;
    }
    if cipher == E2 {
        return true;
    }
    if cipher == NOEKEON {
        return true;
    }
    cipher == NOEKEON_EARLIER
}

// Is it a key length of the ciphers that have three?
fn is_one_of_three(len: usize) -> bool
    ensures { result ≡ member len (16 ∷ 24 ∷ 32 ∷ []) }
{
    if len == 16 {
        return true;
    }
    if len == 24 {
        return true;
    }
    len == 32
}

// Is a key of that length legal for the cipher of that number?
pub fn is_length(cipher: u64, len: usize) -> bool
    ensures { result ≡ is_length cipher len }
{
    if cipher == HIEROCRYPT3 {
        return is_one_of_three(len);
    }
    if cipher == E2 {
        return is_one_of_three(len);
    }
    if cipher == NOEKEON {
        return len == 16;
    }
    if cipher == NOEKEON_EARLIER {
        return len == 16;
    }
    false
}

pub fn is_direction(direction: u64) -> bool
    ensures { result ≡ is_direction direction }
{
    if direction == ENCIPHER {
        return true;
    }
    direction == DECIPHER
}

// Are the bytes behind the used round keys zero? Each place is a literal, so that each test compiles to a straight line of wide ors.
pub fn rest_is_zero(keys: &[u8; 288], cipher: u64, len: usize) -> bool
    requires { is_length cipher len ≡ true }
    ensures { result ≡ zeros (drop ((number cipher).used len) keys.now) }
{
    if cipher == HIEROCRYPT3 {
        if len == 16 {
            return runs::zero_from(keys, 224);
        }
        if len == 24 {
            return runs::zero_from(keys, 256);
        }
        return runs::zero_from(keys, 288);
    }
    if cipher == E2 {
        return runs::zero_from(keys, 256);
    }
    runs::zero_from(keys, 16)
}

// The round keys of a key, zeros behind.
pub fn round_keys(cipher: u64, key: &[u8]) -> [u8; 288]
    requires { is_length cipher (length key.now) ≡ true }
    ensures { result ≡ padded ((number cipher).round_keys key.now) }
{
    if cipher == HIEROCRYPT3 {
        return hierocrypt3_keys::round_keys(key);
    }
    if cipher == E2 {
        return e2_keys::round_keys(key);
    }
    noekeon::round_keys(key)
}
