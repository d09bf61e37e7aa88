// The keys of the key file that every command names: one, which all of it is, or two, the chain's and the seal's.
ghost use Rattle.std.specs.Prelude.{◌≤◌, length, IfSome};

use crate::line::Lines;
use crate::{hex_file, schedule};
use cipher::Schedule;
use recipe_words::{arguments, outcome};

// The schedules of two keys, and the second key.
#[derive(Drop)]
pub struct Pair<'a> {
    pub first: Schedule,
    pub second: Schedule,
    pub key: &'a [u8],
}

// The schedule of the one key.
pub fn one(rt: &HostRuntime) -> Option<Schedule> {
    let mut space = [0u8; 2048];
    let key = hex_file::read(rt, arguments::KEY_FILE, "keys", Lines::All, &mut space)?;
    schedule::of(rt, key, "key")
}

// The two keys, which differ. The second is laid in the space.
pub fn two<'a>(rt: &HostRuntime, space: &'a mut [u8]) -> Option<Pair<'a>>
    ensures { IfSome result (λ pair. length pair.key.now ≤ length space.old) }
{
    let mut other = [0u8; 2048];
    let (one, two) = hex_file::read_two(rt, arguments::KEY_FILE, "keys", &mut other, space)?;
    let first = schedule::of(rt, one, "key1")?;
    let second = schedule::of(rt, two, "key2")?;
    if one == two {
        outcome::tell(rt, "failed same");
        return None;
    }
    Some(Pair {
        first,
        second,
        key: two,
    })
}
