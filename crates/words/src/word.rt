// A word of 32 bits and its four bytes, the left byte the highest, by themselves and among other bytes.
ghost use Rattle.std.specs.Prelude.{◌≡◌, [], ◌∷◌, ◌+◌, ◌/◌, ◌%◌, ◌^◌, ◌≤◌, ◌<◌, length};
ghost use Rattle.laws.specs.Bytes.{bytes_of};
ghost use Rattle.laws.specs.Turn.{rol};
ghost use Rattle.words.specs.Word.{WordOf, WordFrom, with_word};

// The word of four bytes. By shifts: by `from_be_bytes` a block of E2, whose words are put together anew in each round, took a
// third longer.
pub fn word(a: u8, b: u8, c: u8, d: u8) -> u32
    ensures { WordOf a b c d result }
{
    (u32::from(a) << 24) | (u32::from(b) << 16) | (u32::from(c) << 8) | u32::from(d)
}

// The highest byte of a word. (Four functions: of one with the place as a const parameter each contract would say a
// difference of powers instead of its own, which is no plainer.)
pub fn byte0(w: u32) -> u8
    ensures { result ≡ w / 2 ^ 24 }
{
    (w / 16777216) as u8
}

// The byte after it.
pub fn byte1(w: u32) -> u8
    ensures { result ≡ w / 2 ^ 16 % 2 ^ 8 }
{
    (w / 65536 % 256) as u8
}

// The byte before the lowest.
pub fn byte2(w: u32) -> u8
    ensures { result ≡ w / 2 ^ 8 % 2 ^ 8 }
{
    (w / 256 % 256) as u8
}

// The lowest byte.
pub fn byte3(w: u32) -> u8
    ensures { result ≡ w % 2 ^ 8 }
{
    (w % 256) as u8
}

// The four bytes of a word.
pub fn bytes(w: u32) -> [u8; 4]
    ensures { result ≡ bytes_of (w ∷ []) }
{
    w.to_be_bytes()
}

// The word of the four bytes from a place on.
pub fn word_at(bytes: &[u8], at: usize) -> u32
    requires { at + 4 ≤ length bytes.now }
    ensures { WordFrom bytes.now at result }
{
    u32::from_be_bytes(runs::part(bytes, at))
}

// The bytes of a word, put in from a place on.
pub fn put(bytes: &mut [u8], at: usize, w: u32)
    requires { at + 4 ≤ length bytes.old }
    ensures { bytes.new ≡ with_word bytes.old at w }
{
    runs::store(bytes, at, self::bytes(w));
}

// A word turned n places to the left.
pub fn rotated(x: u32, n: u32) -> u32
    requires { (0 < n) × (n < 32) }
    ensures { result ≡ rol 32 n x }
{
    x.rotate_left(n)
}
