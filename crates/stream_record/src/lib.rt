// A stream laid down as a record of bytes, and taken up again with its schedule (02, request 5).
#![tactic(auto)]

ghost use Rattle.std.specs.Prelude.{◌≡◌};
ghost use Rattle.refusals.specs.Numbers.{number};
ghost use Rattle.stream.specs.Numbered.{started_in_numbers};
ghost use Rattle.stream_record.specs.Record.{fields_of, stream_from, bad_fields, differs};
ghost use Rattle.stream_record.specs.Calls.{lay_down_refusal, take_up_refusal};
ghost use Rattle.stream_record.specs.Promises.{LaysDown, TakesUp};

use cipher::Schedule;
use refusals::Answer;
use stream::{Started, Stream};
use stream_layout::Fields;

// A stream's fields.
fn fields_of(s: Stream) -> Fields
    ensures { result ≡ fields_of s }
{
    let chain = s.chain;
    let held = stream_layout::in_sixteen(s.held);
    Fields {
        cipher: s.schedule.cipher,
        key_length: s.schedule.key_length,
        direction: s.direction,
        closed: if s.closed { 1 } else { 0 },
        count: s.count,
        chain,
        held,
    }
}

// The stream that the fields spell, under a schedule.
fn stream_from(schedule: Schedule, f: Fields) -> Stream
    ensures { result ≡ stream_from schedule f }
{
    let chain = f.chain;
    let held = stream_layout::in_fifteen(f.held);
    Stream {
        schedule,
        direction: f.direction,
        count: f.count,
        chain,
        held,
        closed: f.closed == 1,
    }
}

// Is one of the fields bad? The round keys, which are in no record, are zeros here.
fn bad_fields(f: Fields) -> bool
    ensures { result ≡ bad_fields f }
{
    if 1 < f.closed {
        return true;
    }
    if f.held[15] != 0 {
        return true;
    }
    let schedule = Schedule {
        round_keys: [0u8; 288],
        cipher: f.cipher,
        key_length: f.key_length,
    };
    stream_from(schedule, f).is_bad()
}

// Is the record of another cipher or key length?
#[tactic(auto, using(crate::proofs::Outcomes::another_cipher, crate::proofs::Outcomes::by_length_lem))]
fn differs(schedule: Schedule, f: Fields) -> bool
    ensures { result ≡ differs schedule f }
{
    if f.cipher != schedule.cipher {
        return true;
    }
    f.key_length != schedule.key_length
}

// Whether a stream is laid down in that room.
fn lay_down_refusal(s: Stream, room: usize) -> Answer
    ensures { number result ≡ lay_down_refusal s room }
{
    stream_orders::lay_down::first(s.is_bad(), room < stream_layout::LENGTH)
}

// Whether a record is taken up.
fn take_up_refusal(schedule: Schedule, record: &[u8]) -> Answer
    ensures { number result ≡ take_up_refusal schedule «record».now }
{
    let bad = schedule.is_bad();
    if record.len() != stream_layout::LENGTH {
        return stream_orders::take_up::first(bad, true, false);
    }
    let f = stream_layout::read(record);
    stream_orders::take_up::first(bad, bad_fields(f), differs(schedule, f))
}

// The stream's record to the front of the output.
pub fn lay_down(stream: Stream, out: &mut [u8]) -> Answer
    ensures { LaysDown stream out.old (number result) out.new }
{
    lay_down_refusal(stream, out.len())?;
    stream_layout::write(fields_of(stream), out);
    Ok(())
}

// The stream of a record, under a schedule. Round keys are in no record, so another key of the same length can't be noticed.
pub fn take_up(schedule: Schedule, record: &[u8]) -> Started
    ensures { TakesUp schedule «record».now (started_in_numbers result) }
{
    if let Err(refusal) = take_up_refusal(schedule, record) {
        return stream::not_started(Err(refusal));
    }
    Started {
        answer: Ok(()),
        stream: stream_from(schedule, stream_layout::read(record)),
    }
}
