// What stands in a script: numbers, strings and buffers. None where it ends before one, or a length is too great for the
// space.
ghost use Rattle.std.specs.Prelude.{◌≤◌, length, IfSome};

use std::io::{Input, Read};

// Fills the slice from the script.
fn fill(rt: &impl Input, bytes: &mut [u8]) -> Option<()> {
    rt.reader().read_exact(bytes).ok()
}

// The next N bytes.
pub fn array<const N: usize>(rt: &impl Input) -> Option<[u8; N]> {
    let mut bytes = [0u8; N];
    fill(rt, &mut bytes)?;
    Some(bytes)
}

// A byte: the next call's number, among others.
pub fn byte(rt: &impl Input) -> Option<u8> {
    let [byte] = array::<1>(rt)?;
    Some(byte)
}

// A number of eight bytes, big-endian.
pub fn number(rt: &impl Input) -> Option<u64> {
    Some(u64::from_be_bytes(array::<8>(rt)?))
}

// The front of the space, as long as the script says.
fn front<'a>(rt: &impl Input, space: &'a mut [u8]) -> Option<&'a mut [u8]>
    ensures { IfSome result (λ bytes. length bytes.now ≤ length space.old) }
{
    let length = u32::from_be_bytes(array::<4>(rt)?);
    space.get_mut(..length as usize)
}

// A string: a length, then so many bytes, which are laid at the front of the space.
pub fn string<'a>(rt: &impl Input, space: &'a mut [u8]) -> Option<&'a mut [u8]>
    ensures { IfSome result (λ bytes. length bytes.now ≤ length space.old) }
{
    let bytes = front(rt, space)?;
    fill(rt, bytes)?;
    Some(bytes)
}

// A buffer: a length and the byte that each of its bytes is.
pub fn buffer<'a>(rt: &impl Input, space: &'a mut [u8]) -> Option<&'a mut [u8]>
    ensures { IfSome result (λ bytes. length bytes.now ≤ length space.old) }
{
    let bytes = front(rt, space)?;
    bytes.fill(byte(rt)?);
    Some(bytes)
}
