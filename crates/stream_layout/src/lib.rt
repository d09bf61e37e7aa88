// The record of a stream that is laid down, field by field (02, request 5). Neither a stream nor a cipher is known here.
#![tactic(auto)]

pub mod number;

ghost use Rattle.std.specs.Prelude.{◌≡◌, [], ◌∷◌, ◌++◌, ◌≤◌, length, drop};
ghost use Rattle.laws.specs.Places.{part};
ghost use Rattle.stream_layout.specs.Layout.{chain, record_length, numbers, laid, spelt};

#[derive(Clone, Copy)]
pub struct Fields {
    pub cipher: u8,
    pub key_length: u8,
    pub direction: u8,
    pub closed: u8,
    pub count: u64,
    pub chain: [u8; 16],
    pub held: [u8; 16],
}

// How many bytes the count takes.
pub const COUNT_WIDTH: usize = 4;

// Where each field begins, and the whole ends.
const CIPHER: usize = 0;

const KEY_LENGTH: usize = 1;

const DIRECTION: usize = 2;

const CLOSED: usize = 3;

const COUNT: usize = 4;

const CHAIN: usize = COUNT + COUNT_WIDTH;

const HELD: usize = CHAIN + 16;

pub const LENGTH: usize = HELD + 16;

// The numbers at the front of the output.
fn put_numbers(f: Fields, out: &mut [u8])
    requires { chain.begins ≤ length out.old }
    ensures { out.new ≡ numbers f ++ drop chain.begins out.old }
{
    number::put(out, CIPHER, 1, f.cipher as u64);
    number::put(out, KEY_LENGTH, 1, f.key_length as u64);
    number::put(out, DIRECTION, 1, f.direction as u64);
    number::put(out, CLOSED, 1, f.closed as u64);
    number::put(out, COUNT, COUNT_WIDTH, f.count);
}

// The fields at the front of the output.
pub fn write(f: Fields, out: &mut [u8])
    requires { record_length ≤ length out.old }
    ensures { out.new ≡ laid f ++ drop record_length out.old }
{
    put_numbers(f, out);
    runs::store(out, CHAIN, f.chain);
    runs::store(out, HELD, f.held);
}

// The fields of a record.
pub fn read(record: &[u8]) -> Fields
    requires { length «record».now ≡ record_length }
    ensures { result ≡ spelt «record».now }
{
    Fields {
        cipher: record[CIPHER],
        key_length: record[KEY_LENGTH],
        direction: record[DIRECTION],
        closed: record[CLOSED],
        count: number::at(record, COUNT, COUNT_WIDTH),
        chain: runs::part(record, CHAIN),
        held: runs::part(record, HELD),
    }
}

// The held bytes of a stream in a record's sixteen places.
pub fn in_sixteen(fifteen: [u8; 15]) -> [u8; 16]
    ensures { result ≡ part 0 0 15 fifteen ++ (0 ∷ []) }
{
    let mut sixteen = [0u8; 16];
    runs::store(&mut sixteen, 0, fifteen);
    sixteen
}

// And in a stream's fifteen again.
pub fn in_fifteen(sixteen: [u8; 16]) -> [u8; 15]
    ensures { result ≡ part 0 0 15 sixteen }
{
    runs::part(&sixteen, 0)
}
