// What host/bench measures of seals, and host/check holds to another's: a message sealed, in one piece and byte by byte.
#![tactic(auto)]

ghost use Rattle.std.specs.Prelude.{◌≡◌};
ghost use Rattle.seal_speed.specs.Works.{begun, SealsMessage, SealsBytes};

use refusals::number;
use seal::Seal;

// The seal of set-up and start, whether they refuse or not.
fn opened(cipher: u64, key: &[u8]) -> Seal
    ensures { result ≡ begun cipher key.now }
{
    let made = cipher::set_up(cipher, key);
    let started = Seal::start(made.schedule);
    started.seal
}

// The input as one piece of a fresh seal, which is then written to the front of the output.
pub fn tlilcueyoh_speed_seal(cipher: u64, key: &[u8], input: &[u8], output: &mut [u8]) -> u64
    ensures { SealsMessage cipher key.now input.now output.old result output.new }
{
    let seal = opened(cipher, key);
    let fed = seal.feed(input);
    if let Err(no) = fed.answer {
        return no.number() as u64;
    }
    let written = fed.next.write(output);
    number(written.answer) as u64
}

// The same in pieces of one byte, until one is refused.
pub fn tlilcueyoh_speed_seal_bytes(cipher: u64, key: &[u8], input: &[u8], output: &mut [u8]) -> u64
    ensures { SealsBytes cipher key.now input.now output.old result output.new }
{
    let mut seal = opened(cipher, key);
    for i in 0..input.len() {
        let fed = seal.feed(&input[i..i + 1]);
        if let Err(no) = fed.answer {
            return no.number() as u64;
        }
        seal = fed.next;
    }
    let written = seal.write(output);
    number(written.answer) as u64
}
