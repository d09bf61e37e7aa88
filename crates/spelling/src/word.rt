// A word in capital or small letters.
ghost use Rattle.std.specs.Prelude.{◌≡◌};
ghost use Rattle.spelling.specs.Word as spec;

#[tactic(auto, using(crate::proofs::Words::lowercase_small))]
fn small(letter: u8) -> u8
    ensures { result ≡ spec.small letter }
{
    letter.to_ascii_lowercase()
}

// Whether a word spells a name, in capitals or small letters. The name is given in small ones.
pub fn is(word: &[u8], name: &[u8]) -> bool
    ensures { result ≡ spec.spells word.now name.now }
{
    if word.len() != name.len() {
        return false;
    }
    for (i, letter) in name.iter().enumerate() {
        if small(word[i]) != *letter {
            return false;
        }
    }
    true
}
