// Blank keys (02, request 7).
ghost use Rattle.std.specs.Prelude.{◌≡◌, ◌&&◌, length};
ghost use Rattle.cipher_numbers.specs.Ciphers.{is_length};
ghost use Rattle.cipher_numbers.specs.Blank.{blank};

use crate::is_length;

// Are the key's bytes all equal? The first is laid beside itself too: the compiler looks at 32 or at 4 bytes at once, and at those left over one by one.
fn is_blank(key: &[u8]) -> bool
    ensures { result ≡ blank key.now }
{
    if key.len() == 0 {
        return true;
    }
    runs::all_from(key, 0, key[0])
}

// Is the key legal for the cipher of that number, and blank? A key of an illegal length, which may be any, isn't looked at.
pub fn is_legal_and_blank(cipher: u64, key: &[u8]) -> bool
    ensures { result ≡ (is_length cipher (length key.now) && blank key.now) }
{
    if !is_length(cipher, key.len()) {
        return false;
    }
    is_blank(key)
}
