// The archive of what host/bench measures of seals: each export calls the function of the same name in `seal_speed`, whose clauses it has.
#![tactic(auto)]

ghost use Rattle.seal_speed.specs.Works.{SealsMessage, SealsBytes};

// The input as one piece of a fresh seal, which is then written to the front of the output.
#[unsafe(no_mangle)]
pub extern "C" fn tlilcueyoh_speed_seal(
    cipher: u64,
    key: &[u8],
    input: &[u8],
    output: &mut [u8],
) -> u64
    ensures { SealsMessage cipher key.now input.now output.old result output.new }
{
    seal_speed::tlilcueyoh_speed_seal(cipher, key, input, output)
}

// The same in pieces of one byte, until one is refused.
#[unsafe(no_mangle)]
pub extern "C" fn tlilcueyoh_speed_seal_bytes(
    cipher: u64,
    key: &[u8],
    input: &[u8],
    output: &mut [u8],
) -> u64
    ensures { SealsBytes cipher key.now input.now output.old result output.new }
{
    seal_speed::tlilcueyoh_speed_seal_bytes(cipher, key, input, output)
}
