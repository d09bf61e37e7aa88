// Whether given bytes are a seal.
ghost use Rattle.std.specs.Prelude.{◌≡◌};
ghost use Rattle.runs.specs.Same.{same};

// Are they this block? All 16 bytes are looked at, wherever they differ.
pub fn is_seal(given: &[u8], seal: [u8; 16]) -> bool
    ensures { result ≡ same given.now seal }
{
    if given.len() != 16 {
        return false;
    }
    let differences = words::bytes::xor(runs::part(given, 0), seal);
    runs::zero_from(&differences, 0)
}
