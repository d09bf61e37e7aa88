// For each public call a thin caller that gets exactly its promise, so that a contract which promises less is refused here. docs/PROMISES.md is the index.
#![tactic(auto)]

ghost use Rattle.std.specs.Prelude.{◌≡◌};
ghost use Rattle.refusals.specs.Numbers.{number};
ghost use Rattle.cipher.specs.Numbered.{in_numbers};
ghost use Rattle.stream.specs.State.{zero_stream};
ghost use Rattle.stream.specs.Calls.{started_as};
ghost use Rattle.stream.specs.Numbered.{started_in_numbers, fed_in_numbers, finished_in_numbers};
ghost use Rattle.seal.specs.Numbered as seals;
ghost use Rattle.hex_digits.specs.Read.{Read};
ghost use Rattle.card.specs.Promises.{Judges, Finds, Puts};
ghost use Rattle.card_compare.specs.Promises.{Compares};
ghost use Rattle.cipher.specs.Promises.{SetsUp, EnciphersBlock, DeciphersBlock};
ghost use Rattle.stream.specs.Promises.{Starts, Feeds, Finishes};
ghost use Rattle.stream_record.specs.Promises.{LaysDown, TakesUp};
ghost use Rattle.seal.specs.Promises.{StartsSeal, FeedsSeal, WritesSeal, ChecksSeal};
ghost use Rattle.entry.specs.Entry.{WorksForC, TellsVersion};
ghost use Rattle.speed.specs.Works.{WorksBlocks, WorksMessage, WorksBytes};
ghost use Rattle.card_speed.specs.Works.{MeasuresGood, MeasuresFind, MeasuresCompare};
ghost use Rattle.seal_speed.specs.Works.{SealsMessage, SealsBytes};

use card_compare::Compared;
use cipher::{Schedule, SetUp};
use hex_digits::Misspelled;
use refusals::Answer;
use seal::Seal;
use stream::{Fed, Finished, Started, Stream};

pub fn set_up(cipher: u64, key: &[u8]) -> SetUp
    ensures { SetsUp cipher key.now (in_numbers result) }
{
    cipher::set_up(cipher, key)
}

pub fn encipher_block(s: Schedule, block: &[u8], out: &mut [u8]) -> Answer
    ensures { EnciphersBlock s block.now out.old (number result) out.new }
{
    cipher::encipher_block(s, block, out)
}

pub fn decipher_block(s: Schedule, block: &[u8], out: &mut [u8]) -> Answer
    ensures { DeciphersBlock s block.now out.old (number result) out.new }
{
    cipher::decipher_block(s, block, out)
}

pub fn start(schedule: Schedule, direction: u64, first: &[u8]) -> Started
    ensures { Starts schedule direction first.now (started_in_numbers result) }
{
    Stream::start(schedule, direction, first)
}

// For the crates above `stream`, so without a named promise: any number, also one that no refusal has.
pub fn not_started(answer: u8) -> Started<u8>
    ensures { result ≡ started_as answer zero_stream }
{
    stream::not_started(answer)
}

pub fn feed(s: Stream, piece: &[u8], out: &mut [u8]) -> Fed
    ensures { Feeds s piece.now out.old (fed_in_numbers result) out.new }
{
    s.feed(piece, out)
}

pub fn finish(s: Stream) -> Finished
    ensures { Finishes s (finished_in_numbers result) }
{
    s.finish()
}

pub fn lay_down(s: Stream, out: &mut [u8]) -> Answer
    ensures { LaysDown s out.old (number result) out.new }
{
    stream_record::lay_down(s, out)
}

pub fn take_up(schedule: Schedule, record: &[u8]) -> Started
    ensures { TakesUp schedule «record».now (started_in_numbers result) }
{
    stream_record::take_up(schedule, record)
}

pub fn block_for_c(cipher: u64, direction: u64, key: &[u8], input: &[u8], output: &mut [u8]) -> u64
    ensures { WorksForC cipher direction key.now input.now output.old result output.new }
{
    entry::tlilcueyoh_block(cipher, direction, key, input, output)
}

pub fn start_seal(schedule: Schedule) -> seal::Started
    ensures { StartsSeal schedule (seals.started_in_numbers result) }
{
    Seal::start(schedule)
}

pub fn feed_seal(seal: Seal, piece: &[u8]) -> seal::Fed
    ensures { FeedsSeal seal piece.now (seals.fed_in_numbers result) }
{
    seal.feed(piece)
}

pub fn write_seal(seal: Seal, out: &mut [u8]) -> seal::Written
    ensures { WritesSeal seal out.old (seals.written_in_numbers result) out.new }
{
    seal.write(out)
}

pub fn check_seal(seal: Seal, given: &[u8]) -> seal::Checked
    ensures { ChecksSeal seal given.now (seals.checked_in_numbers result) }
{
    seal.check(given)
}

pub fn version_for_c() -> u64
    ensures { TellsVersion result }
{
    entry::tlilcueyoh_version()
}

pub fn read_hex(text: &[u8], out: &mut [u8]) -> Result<usize, Misspelled>
    ensures { Read text.now out.old result out.new }
{
    hex_digits::read(text, out)
}

pub fn good_card(card: &[u8]) -> bool
    ensures { Judges card.now result }
{
    card::good(card)
}

pub fn find_segment(card: &[u8], recipe: u64, segment: u64) -> &[u8]
    ensures { Finds card.entry recipe segment result }
{
    card::find(card, recipe, segment)
}

pub fn put_record(card: &mut [u8], record: &[u8]) -> Answer
    ensures { Puts card.old «record».now (number result) card.new }
{
    card::put(card, record)
}

pub fn compare_cards(first: &[u8], second: &[u8], out: &mut [u8]) -> Compared
    ensures { Compares first.now second.now out.old (number result.answer) result.written out.new }
{
    card_compare::compare(first, second, out)
}

pub fn blocks_measured(
    cipher: u64,
    direction: u64,
    key: &[u8],
    input: &[u8],
    output: &mut [u8],
) -> u64
    ensures { WorksBlocks cipher direction key.now input.now output.old result output.new }
{
    speed::tlilcueyoh_speed_blocks(cipher, direction, key, input, output)
}

pub fn message_measured(
    cipher: u64,
    direction: u64,
    key: &[u8],
    first: &[u8],
    input: &[u8],
    output: &mut [u8],
) -> u64
    ensures { WorksMessage cipher direction key.now first.now input.now output.old result output.new }
{
    speed::tlilcueyoh_speed_cbc(cipher, direction, key, first, input, output)
}

pub fn bytes_measured(
    cipher: u64,
    direction: u64,
    key: &[u8],
    first: &[u8],
    input: &[u8],
    output: &mut [u8],
) -> u64
    ensures { WorksBytes cipher direction key.now first.now input.now output.old result output.new }
{
    speed::tlilcueyoh_speed_bytes(cipher, direction, key, first, input, output)
}

pub fn good_measured(card: &[u8]) -> u64
    ensures { MeasuresGood card.now result }
{
    card_speed::tlilcueyoh_speed_good(card)
}

pub fn find_measured(card: &[u8], recipe: u64, segment: u64) -> u64
    ensures { MeasuresFind card.now recipe segment result }
{
    card_speed::tlilcueyoh_speed_find(card, recipe, segment)
}

pub fn compare_measured(first: &[u8], second: &[u8], out: &mut [u8]) -> u64
    ensures { MeasuresCompare first.now second.now out.old result out.new }
{
    card_speed::tlilcueyoh_speed_compare(first, second, out)
}

pub fn seal_measured(cipher: u64, key: &[u8], input: &[u8], output: &mut [u8]) -> u64
    ensures { SealsMessage cipher key.now input.now output.old result output.new }
{
    seal_speed::tlilcueyoh_speed_seal(cipher, key, input, output)
}

pub fn seal_by_bytes_measured(cipher: u64, key: &[u8], input: &[u8], output: &mut [u8]) -> u64
    ensures { SealsBytes cipher key.now input.now output.old result output.new }
{
    seal_speed::tlilcueyoh_speed_seal_bytes(cipher, key, input, output)
}
