// The keys of two cards gone through together, by recipe, then segment: a word for each change, of recipe, segment and mark.
ghost use Rattle.std.specs.Prelude.{◌≡◌, true, ◌+◌, ◌/◌, ◌%◌, ◌≤◌, ◌<◌, length, take};
ghost use Rattle.laws.specs.Choice.{choose};
ghost use Rattle.laws.specs.Bytes.{bytes_of};
ghost use Rattle.runs.specs.Same.{same};
ghost use Rattle.card_slots.specs.Card.{good, slot};
ghost use Rattle.card.specs.code.Order.{Ordered};
ghost use Rattle.card_compare.specs.Compare.{differences};
ghost use Rattle.card_compare.specs.code.Merge as spec;

// The mark's byte as it is in the list (02, request 6). No enum: with 0 for no change it is laid and counted without a branch.
const ONLY_FIRST: u8 = 1;

const ONLY_SECOND: u8 = 2;

const OTHER_CONTENTS: u8 = 3;

// more than any recipe and segment, as one number, can be
const END: u32 = 16777216;

// Recipe and segment of key i, as one number.
fn number(keys: &[u32], i: usize) -> u32
    ensures { result ≡ spec.number_at keys.now i }
{
    if i < keys.len() {
        return keys[i] / 256;
    }
    END
}

// Are the slots of two keys the same?
fn same_slot(first: &[u8], second: &[u8], k: u32, l: u32) -> bool
    requires { (k % 256 < length first.now / 16) × (l % 256 < length second.now / 16) }
    ensures { result ≡ same (slot first.now (k % 256)) (slot second.now (l % 256)) }
{
    let i = (k % 256) as usize;
    let j = (l % 256) as usize;
    let one: [u8; 16] = runs::part(first, i * 16);
    let two: [u8; 16] = runs::part(second, j * 16);
    let differences = words::bytes::xor(one, two);
    runs::zero_from(&differences, 0)
}

// The mark of the lesser of x and y, the numbers of the next two keys, or 0 where there is no change.
fn mark(first: &[u8], second: &[u8], a: &[u32], b: &[u32], i: usize, j: usize, x: u32, y: u32) -> u8
    requires { (x ≡ spec.number_at a.now i) × (y ≡ spec.number_at b.now j) × Ordered first.now a.now × Ordered second.now b.now
        × (i ≤ length a.now) × (j ≤ length b.now) × (i + j < length a.now + length b.now) }
    ensures { result ≡ spec.mark_at first.now second.now a.now b.now i j }
{
    if x < y {
        return ONLY_FIRST;
    }
    if y < x {
        return ONLY_SECOND;
    }
    if same_slot(first, second, a[i], b[j]) {
        return 0;
    }
    OTHER_CONTENTS
}

fn one_if(yes: bool) -> usize
    ensures { (result ≤ 1) × (result ≡ choose yes 1 0) }
{
    usize::from(yes)
}

// The changes at the front of `list`: how many. (A `while`: two places go forward, each by its own steps.)
pub fn changes(first: &[u8], second: &[u8], a: &[u32], b: &[u32], list: &mut [u32]) -> usize
    requires { (good first.now ≡ true) × (good second.now ≡ true) × Ordered first.now a.now × Ordered second.now b.now
        × (length list.old ≡ 512) }
    ensures { (result ≤ 512) × (bytes_of (take result list.new) ≡ differences first.now second.now) }
{
    let mut i: usize = 0;
    let mut j: usize = 0;
    let mut n: usize = 0;
    while i + j < a.len() + b.len() {
        let x = number(a, i);
        let y = number(b, j);
        let z = x.min(y);
        let m = mark(first, second, a, b, i, j, x, y);
        list[n] = z * 256 + m as u32;
        n += one_if(m != 0);
        i += one_if(x == z);
        j += one_if(y == z);
    }
    n
}
