// The archive of what host/bench measures of ciphers and streams: each export calls the function of the same name in `speed`, whose clauses it has.
#![tactic(auto)]

ghost use Rattle.speed.specs.Works.{WorksBlocks, WorksMessage, WorksBytes};

// The blocks of the input, each by itself, in a direction.
#[unsafe(no_mangle)]
pub extern "C" fn tlilcueyoh_speed_blocks(
    cipher: u64,
    direction: u64,
    key: &[u8],
    input: &[u8],
    output: &mut [u8],
) -> u64
    ensures { WorksBlocks cipher direction key.now input.now output.old result output.new }
{
    speed::tlilcueyoh_speed_blocks(cipher, direction, key, input, output)
}

// The input as one piece of a fresh stream.
#[unsafe(no_mangle)]
pub extern "C" fn tlilcueyoh_speed_cbc(
    cipher: u64,
    direction: u64,
    key: &[u8],
    first: &[u8],
    input: &[u8],
    output: &mut [u8],
) -> u64
    ensures { WorksMessage cipher direction key.now first.now input.now output.old result output.new }
{
    speed::tlilcueyoh_speed_cbc(cipher, direction, key, first, input, output)
}

// The input in pieces of one byte, all to the front of the output, until one is refused.
#[unsafe(no_mangle)]
pub extern "C" fn tlilcueyoh_speed_bytes(
    cipher: u64,
    direction: u64,
    key: &[u8],
    first: &[u8],
    input: &[u8],
    output: &mut [u8],
) -> u64
    ensures { WorksBytes cipher direction key.now first.now input.now output.old result output.new }
{
    speed::tlilcueyoh_speed_bytes(cipher, direction, key, first, input, output)
}
