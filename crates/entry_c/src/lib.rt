// The archive of the entry for C: each export calls the function of the same name in `entry`, whose clauses it has.
#![tactic(auto)]

ghost use Rattle.entry.specs.Entry.{WorksForC, TellsVersion};

// One block enciphered (direction 1) or deciphered (2) under a key, to the front of the output. 0 is done.
#[unsafe(no_mangle)]
pub extern "C" fn tlilcueyoh_block(
    cipher: u64,
    direction: u64,
    key: &[u8],
    input: &[u8],
    output: &mut [u8],
) -> u64
    ensures { WorksForC cipher direction key.now input.now output.old result output.new }
{
    entry::tlilcueyoh_block(cipher, direction, key, input, output)
}

// The version of the call and its answers, for a host to compare with its header's.
#[unsafe(no_mangle)]
pub extern "C" fn tlilcueyoh_version() -> u64
    ensures { TellsVersion result }
{
    entry::tlilcueyoh_version()
}
