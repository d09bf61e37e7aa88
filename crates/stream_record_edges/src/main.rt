// The edge cases of 02, request 5, for every cipher, run and shown: each call with its answer, and what it returns and leaves.
#![tactic(auto)]

ghost use Rattle.std.specs.Prelude.{◌<◌};

use cipher::Schedule;
use edge_words::{Hex, front, line, say};
use refusals::number;
use stream::Stream;

// ---- the calls, shown
// Laid down in so many bytes of room. The output, which is the record where there are 40.
fn lay<const ROOM: usize>(rt: &impl Print, call: &str, stream: Stream) -> [u8; ROOM] {
    let mut out = [238u8; ROOM];
    let answer = number(stream_record::lay_down(stream, &mut out));
    line(
        rt,
        format_args!("  {call}: answer {answer}, output {}", Hex(&out)),
    );
    out
}

// A stream but for its schedule.
fn show(rt: &impl Print, stream: Stream) {
    let direction = stream.direction;
    let count = stream.count;
    say(
        rt,
        format_args!(
            ", direction {direction}, count {count}, chain {}",
            Hex(&stream.chain)
        ),
    );
    let state = if stream.closed { "closed" } else { "open" };
    line(rt, format_args!(", held {}, {state}", Hex(&stream.held)));
}

fn take_up(rt: &impl Print, call: &str, schedule: Schedule, record: &[u8]) -> Stream {
    let taken = stream_record::take_up(schedule, record);
    say(
        rt,
        format_args!("  {call}: answer {}", number(taken.answer)),
    );
    show(rt, taken.stream);
    taken.stream
}

// A piece of one byte, into 16 bytes of room.
fn piece(rt: &impl Print, call: &str, stream: Stream) {
    let mut out = [238u8; 16];
    let fed = stream.feed(b"t", &mut out);
    let answer = number(fed.answer);
    let written = fed.written;
    line(
        rt,
        format_args!(
            "  {call}: answer {answer}, writes {written}, output {}",
            Hex(&out)
        ),
    );
}

// ---- a record, and the schedule that it is taken up under
#[derive(Clone, Copy)]
struct Laid {
    schedule: Schedule,
    record: [u8; 40],
}

impl Laid {
    fn take_up(&self, rt: &impl Print, call: &str) -> Stream {
        take_up(rt, call, self.schedule, &self.record)
    }

    // One byte is another.
    fn with(&self, at: usize, byte: u8) -> Self
        requires { at < 40 }
    {
        let mut record = self.record;
        record[at] = byte;
        Self {
            schedule: self.schedule,
            record,
        }
    }
}

// ---- laid down and taken up again
fn rooms(rt: &impl Print, half_read: Stream) {
    lay::<39>(rt, "31 bytes fed, laid down in 39 of room", half_read);
    lay::<41>(rt, "then in 41 of room", half_read);
}

fn again(rt: &impl Print, half_read: Stream, laid: &Laid) {
    let taken = laid.take_up(rt, "taken up");
    piece(rt, "then a piece of 1", taken);
    piece(rt, "the stream that was laid down, a piece of 1", half_read);
}

fn other_schedules(rt: &impl Print, cipher: u64, record: &[u8]) {
    let made = cipher::set_up(cipher, b"fedcba9876543210");
    let taken = take_up(rt, "taken up under another key", made.schedule, record);
    piece(rt, "then a piece of 1", taken);
    let zeros = cipher::no_schedule();
    take_up(rt, "taken up under a schedule of zeros", zeros, record);
    take_up(rt, "no bytes under a schedule of zeros", zeros, b"");
}

// ---- records that aren't the stream's
fn lengths(rt: &impl Print, laid: &Laid) {
    let mut bytes = [0u8; 44];
    bytes[..40].copy_from_slice(&laid.record);
    take_up(rt, "no bytes", laid.schedule, b"");
    take_up(rt, "39 bytes", laid.schedule, front(&bytes, 39));
    take_up(rt, "41 bytes", laid.schedule, front(&bytes, 41));
    take_up(rt, "44 bytes", laid.schedule, &bytes);
}

fn ciphers(rt: &impl Print, cipher: u64, laid: &Laid) {
    let another = (cipher % 4 + 1) as u8;
    laid.with(0, 0).take_up(rt, "cipher 0");
    laid.with(0, 5).take_up(rt, "cipher 5");
    let other = laid.with(0, another);
    other.take_up(rt, "another cipher");
    other
        .with(2, 3)
        .take_up(rt, "another cipher, and direction 3");
    laid.with(1, 15).take_up(rt, "a key length of 15");
    laid.with(1, 24).take_up(rt, "a key length of 24");
    laid.with(1, 32).take_up(rt, "a key length of 32");
}

fn fields(rt: &impl Print, laid: &Laid) {
    laid.with(2, 0).take_up(rt, "direction 0");
    laid.with(2, 2).take_up(rt, "direction 2");
    laid.with(2, 3).take_up(rt, "direction 3");
    laid.with(3, 1).take_up(rt, "closed, with 15 bytes held");
    laid.with(3, 2).take_up(rt, "a closed byte of 2");
    laid.with(7, 30).take_up(rt, "a count of 30");
    laid.with(4, 1).take_up(rt, "a count of 16777247");
    laid.with(39, 1).take_up(rt, "the last held byte 1");
}

// ---- closed, and at the limit
fn closed(rt: &impl Print, schedule: Schedule, half_read: Stream) -> Laid {
    let mut out = [238u8; 16];
    let whole = half_read.feed(b"t", &mut out);
    let done = whole.next.finish();
    let record = lay::<40>(rt, "32 bytes and finish, laid down", done.next);
    let laid = Laid { schedule, record };
    let taken = laid.take_up(rt, "taken up");
    piece(rt, "then a piece of 1", taken);
    laid
}

fn limit(rt: &impl Print, laid: &Laid) {
    let full = laid.with(3, 0).with(5, 16).with(7, 0);
    let taken = full.take_up(rt, "a count of 1048576");
    piece(rt, "then a piece of 1", taken);
    full.with(7, 1).take_up(rt, "a count of 1048577");
}

fn half_read(fresh: Stream) -> Stream {
    let mut out = [238u8; 16];
    fresh
        .feed(b"the message of thirty-one bytes", &mut out)
        .next
}

fn start(schedule: Schedule) -> Stream {
    Stream::start(schedule, 1, b"the first block.").stream
}

fn of_half_read(rt: &impl Print, cipher: u64, schedule: Schedule, stream: Stream) {
    rooms(rt, stream);
    let mut record = [0u8; 40];
    let _ = stream_record::lay_down(stream, &mut record);
    let laid = Laid { schedule, record };
    again(rt, stream, &laid);
    other_schedules(rt, cipher, &record);
    lengths(rt, &laid);
    ciphers(rt, cipher, &laid);
    fields(rt, &laid);
    limit(rt, &closed(rt, schedule, stream));
}

fn cases(rt: &impl Print, cipher: u64) {
    line(rt, format_args!("cipher {cipher}"));
    lay::<40>(
        rt,
        "a stream of zeros laid down",
        start(cipher::no_schedule()),
    );
    let made = cipher::set_up(cipher, b"0123456789abcdef");
    let fresh = start(made.schedule);
    lay::<40>(rt, "a fresh stream laid down", fresh);
    of_half_read(rt, cipher, made.schedule, half_read(fresh));
}

fn main(rt: HostRuntime) {
    for cipher in 1..=4 {
        cases(&rt, cipher);
    }
}
