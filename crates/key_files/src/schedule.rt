// The schedule of a key.
ghost use Rattle.cipher.specs.Numbered.{in_numbers};
ghost use Rattle.cipher.specs.Promises.{SetsUp};
ghost use Rattle.recipe_words.specs.Given.{cipher_number};

use cipher::{Schedule, SetUp};
use recipe_words::arguments::Cipher;
use recipe_words::outcome;
use refusals::Refusal;

// The key set up. Where no cipher is given, the call itself refuses.
fn set_up(given: Option<Cipher>, key: &[u8]) -> SetUp
    ensures { SetsUp (cipher_number given) key.now (in_numbers result) }
{
    cipher::set_up(Cipher::number(given), key)
}

// The schedule of a key for the cipher that the command names; where there is none, the outcome says why.
pub fn of(rt: &HostRuntime, key: &[u8], about: &str) -> Option<Schedule> {
    let made = set_up(Cipher::given(rt), key);
    match made.answer {
        Ok(()) => return Some(made.schedule),
        Err(refusal) if refusal == Refusal::UnknownCipher => {
            outcome::refused(rt, refusal, "cipher", 0)
        }
        Err(refusal) => outcome::refused(rt, refusal, about, key.len() as u64),
    }
    None
}
