// How many bytes of a message are its last block, and how many blocks a piece puts before it.
ghost use Rattle.std.specs.Prelude.{◌≡◌, ◌≤◌};
ghost use Rattle.cmac.specs.Cmac as cmac;
ghost use Rattle.pieces.specs.Pieces.{limit};

// The bytes of the last block: none of none, else 1 to 16.
pub fn held_number(count: u64) -> usize
    ensures { (result ≡ cmac.final_length count) × (result ≤ 16) }
{
    if count == 0 {
        0
    } else {
        ((count - 1) % 16) as usize + 1
    }
}

// The blocks that n more bytes put before the last one. An empty piece puts none there, not even a full one.
pub fn pushed(count: u64, n: usize) -> usize
    requires { n ≤ limit }
    ensures { result ≡ cmac.pushed count n }
{
    if n == 0 {
        return 0;
    }
    (held_number(count) + n - 1) / 16
}
