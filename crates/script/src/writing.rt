// What is written of an answer: numbers, buffers and strings. A failed write is passed over: who reads the answers
// finds them cut off.

pub fn bytes(rt: &impl Print, b: &[u8]) {
    let _ = rt.write_all(b);
}

pub fn byte(rt: &impl Print, b: u8) {
    bytes(rt, &[b]);
}

pub fn yes(rt: &impl Print, b: bool) {
    byte(rt, u8::from(b));
}

// A number of eight bytes, big-endian.
pub fn number(rt: &impl Print, v: u64) {
    bytes(rt, &v.to_be_bytes());
}

// A string: its length in four bytes, then the bytes.
pub fn string(rt: &impl Print, b: &[u8]) {
    let length = (b.len() as u64).to_be_bytes();
    bytes(rt, &length[4..]);
    bytes(rt, b);
}
