// The calls of a script on a stream, and a stream as a script has it and as an answer does. One that reads is None where
// the script doesn't have all of the call; each but `lay_down` leaves the stream that comes back.
#![tactic(auto)]

use cipher::Schedule;
use refusals::number;
use script::{reading, writing};
use std::io::Input;
use stream::Stream;

// A stream: schedule, direction, count, chain, held bytes, closed.
pub fn keep(rt: &impl Input) -> Option<Stream> {
    Some(Stream {
        schedule: cipher_calls::keep(rt)?,
        direction: reading::byte(rt)?,
        count: reading::number(rt)?,
        chain: reading::array(rt)?,
        held: reading::array(rt)?,
        closed: reading::byte(rt)? != 0,
    })
}

fn returned(rt: &impl Print, stream: Stream) -> Stream {
    cipher_calls::write(rt, stream.schedule);
    writing::byte(rt, stream.direction);
    writing::number(rt, stream.count);
    writing::bytes(rt, &stream.chain);
    writing::bytes(rt, &stream.held);
    writing::yes(rt, stream.closed);
    stream
}

pub fn start(rt: &(impl Input + Print), schedule: Schedule) -> Option<Stream> {
    let mut first = [0u8; 8192];
    let direction = reading::number(rt)?;
    let first = reading::string(rt, &mut first)?;
    let begun = Stream::start(schedule, direction, first);
    writing::byte(rt, number(begun.answer));
    Some(returned(rt, begun.stream))
}

pub fn piece(rt: &(impl Input + Print), stream: Stream) -> Option<Stream> {
    let mut bytes = [0u8; 8192];
    let mut out = [0u8; 8192];
    let bytes = reading::string(rt, &mut bytes)?;
    let out = reading::buffer(rt, &mut out)?;
    let fed = stream.feed(bytes, out);
    writing::byte(rt, number(fed.answer));
    writing::number(rt, fed.written);
    writing::bytes(rt, out);
    Some(returned(rt, fed.next))
}

pub fn finish(rt: &impl Print, stream: Stream) -> Stream {
    let done = stream.finish();
    writing::byte(rt, number(done.answer));
    returned(rt, done.next)
}

pub fn lay_down(rt: &(impl Input + Print), stream: Stream) -> Option<()> {
    let mut out = [0u8; 8192];
    let out = reading::buffer(rt, &mut out)?;
    let answer = stream_record::lay_down(stream, out);
    writing::byte(rt, number(answer));
    writing::bytes(rt, out);
    Some(())
}

pub fn take_up(rt: &(impl Input + Print), schedule: Schedule) -> Option<Stream> {
    let mut record = [0u8; 8192];
    let record = reading::string(rt, &mut record)?;
    let taken = stream_record::take_up(schedule, record);
    writing::byte(rt, number(taken.answer));
    Some(returned(rt, taken.stream))
}
