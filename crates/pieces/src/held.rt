// The held bytes with a piece after them: the first block, and what is left after the whole ones.
ghost use Rattle.std.specs.Prelude.{◌≡◌, true, ◌++◌, ◌+◌, ◌*◌, ◌≤◌, length, take, drop};
ghost use Rattle.runs.specs.Zeros.{zeros};
ghost use Rattle.pieces.specs.Pieces.{held_in};

// The first block of the held bytes with the piece after them.
pub fn first_block(held: &[u8], kept: usize, piece: &[u8]) -> [u8; 16]
    requires { (kept ≤ length held.now) × (16 ≤ kept + length piece.now) }
    ensures { result ≡ take 16 (take kept held.now ++ piece.now) }
{
    let n = kept.min(16);
    let mut block = [0u8; 16];
    block[..n].copy_from_slice(&held[..n]);
    block[n..].copy_from_slice(&piece[..16 - n]);
    block
}

// The bytes after n whole blocks, to be held: where there is no block, the held ones with the piece after them, and else the last of the piece.
pub fn left_over(held: &mut [u8], kept: usize, piece: &[u8], n: usize)
    requires { (kept ≤ length held.old) × (kept ≤ 16) × (zeros (drop kept held.old) ≡ true) × (16 * n ≤ kept + length piece.now)
        × (kept + length piece.now ≤ 16 * n + length held.old) }
    ensures { held.new ≡ held_in (length held.old) (drop (16 * n) (take kept held.old ++ piece.now)) }
{
    if n == 0 {
        held[kept..kept + piece.len()].copy_from_slice(piece);
        return;
    }
    let rest = &piece[16 * n - kept..];
    held.fill(0);
    held[..rest.len()].copy_from_slice(rest);
}
