// A power cut at every byte: messages of 0 to 100 bytes, of every cipher, key length and direction, are laid down and taken up after each byte, from nothing
// but the 40 bytes and the key, and must end as the uncut run does. A line for each tells how many runs differ.
#![tactic(auto)]

use edge_words::{Hex, front, line, say};
use std::array;
use stream::Stream;

// Where in the message it is cut: at every place, or at one.
#[derive(Clone, Copy)]
enum Stops {
    Every,
    At(usize),
}

impl Stops {
    fn has(self, place: usize) -> bool {
        match self {
            Self::Every => true,
            Self::At(only) => place == only,
        }
    }
}

// A call that was refused ends its run.
// What a run leaves: how many bytes are written, these, and the stream, by its record.
#[derive(Clone, Copy, PartialEq, Eq)]
struct End {
    written: usize,
    out: [u8; 112],
    record: [u8; 40],
}

// A message on its way: the stream, and how many bytes are written.
#[derive(Clone, Copy)]
struct Run {
    stream: Stream,
    written: usize,
}

impl Run {
    fn begun(fresh: Stream) -> Self {
        Self {
            stream: fresh,
            written: 0,
        }
    }

    // A piece, whose blocks go after what is written.
    fn feed(self, piece: &[u8], out: &mut [u8]) -> Option<Self> {
        let fed = self.stream.feed(piece, out.get_mut(self.written..)?);
        fed.answer.ok()?;
        Some(Self {
            stream: fed.next,
            written: self.written.checked_add(fed.written as usize)?,
        })
    }

    // The power goes: only the record and the key are left. The record's first byte tells the cipher.
    fn cut(self, key: &[u8]) -> Option<Self> {
        let record = self.record()?;
        let made = cipher::set_up(u64::from(record[0]), key);
        let taken = stream_record::take_up(made.schedule, &record);
        taken.answer.ok()?;
        Some(Self {
            stream: taken.stream,
            written: self.written,
        })
    }

    fn record(&self) -> Option<[u8; 40]> {
        let mut record = [0u8; 40];
        stream_record::lay_down(self.stream, &mut record).ok()?;
        Some(record)
    }

    // Whole blocks are finished.
    fn finish(self) -> Option<Self> {
        if self.stream.count % 16 != 0 {
            return Some(self);
        }
        let finished = self.stream.finish();
        finished.answer.ok()?;
        Some(Self {
            stream: finished.next,
            written: self.written,
        })
    }

    fn end(self, out: [u8; 112]) -> Option<End> {
        let finished = self.finish()?;
        Some(End {
            written: finished.written,
            out,
            record: finished.record()?,
        })
    }
}

// How many runs there were, and how many of them differed from the uncut one.
#[derive(Clone, Copy)]
struct Tally {
    runs: u64,
    differ: u64,
}

impl Tally {
    fn count(&mut self, uncut: &Option<End>, cut: &Option<End>) {
        self.runs = self.runs.saturating_add(1);
        if uncut.is_none() || uncut != cut {
            self.differ = self.differ.saturating_add(1);
        }
    }

    fn tell(&self, rt: &impl Print, words: &str) {
        let runs = self.runs;
        let differ = self.differ;
        say(
            rt,
            format_args!("{runs} runs with {words}, {differ} differ; "),
        );
    }
}

// How a message is cut: once, at each place in turn, or at every byte.
#[derive(Clone, Copy)]
enum Cuts {
    Once,
    Always,
}

// A message for a fresh stream, and the stream's key.
#[derive(Clone, Copy)]
struct Message<'a> {
    fresh: Stream,
    key: &'a [u8],
    text: &'a [u8],
}

impl Message<'_> {
    fn uncut(&self) -> Option<End> {
        let mut out = [238u8; 112];
        let run = Run::begun(self.fresh).feed(self.text, &mut out)?;
        run.end(out)
    }

    // Byte by byte.
    fn cut(&self, stops: Stops) -> Option<End> {
        let mut out = [238u8; 112];
        let mut run = Run::begun(self.fresh);
        for (place, byte) in self.text.chunks(1).enumerate() {
            if stops.has(place) {
                run = run.cut(self.key)?;
            }
            run = run.feed(byte, &mut out)?;
        }
        if stops.has(self.text.len()) {
            run = run.cut(self.key)?;
        }
        run.end(out)
    }

    fn count(&self, cuts: Cuts, tally: &mut Tally) {
        let uncut = self.uncut();
        match cuts {
            Cuts::Once => {
                for place in 0..=self.text.len() {
                    tally.count(&uncut, &self.cut(Stops::At(place)));
                }
            }
            Cuts::Always => tally.count(&uncut, &self.cut(Stops::Every)),
        }
    }

    // The first n bytes of it.
    fn front(&self, n: usize) -> Self {
        Self {
            fresh: self.fresh,
            key: self.key,
            text: front(self.text, n),
        }
    }

    // Every front of it.
    fn count_all(&self, cuts: Cuts) -> Tally {
        let mut tally = Tally { runs: 0, differ: 0 };
        for n in 0..=self.text.len() {
            self.front(n).count(cuts, &mut tally);
        }
        tally
    }

    // The record after the whole message, and the last block of its answer.
    fn tell_end(&self, rt: &impl Print) {
        if let Some(end) = self.uncut() {
            let n = self.text.len();
            say(
                rt,
                format_args!("after {n} bytes the record is {}", Hex(&end.record)),
            );
            line(
                rt,
                format_args!(", the last block written {}", Hex(&end.out[80..96])),
            );
        }
    }

    fn tell_all(&self, rt: &impl Print) {
        self.count_all(Cuts::Once).tell(rt, "one cut");
        self.count_all(Cuts::Always).tell(rt, "a cut at every byte");
        self.tell_end(rt);
    }
}

fn show(rt: &impl Print, cipher: u64, key: &[u8], direction: u64) {
    let length = key.len();
    say(
        rt,
        format_args!("cipher {cipher}, a key of {length} bytes, direction {direction}: "),
    );
    let made = cipher::set_up(cipher, key);
    let started = Stream::start(made.schedule, direction, b"the first block.");
    let text: [u8; 100] = array::from_fn(|i| ((7 * i + 3) % 256) as u8);
    let message = Message {
        fresh: started.stream,
        key,
        text: &text,
    };
    message.tell_all(rt);
}

fn both_ways(rt: &impl Print, cipher: u64, key: &[u8]) {
    show(rt, cipher, key, 1);
    show(rt, cipher, key, 2);
}

fn three_lengths(rt: &impl Print, cipher: u64) {
    let key = *b"0123456789abcdefghijklmnopqrstuv";
    both_ways(rt, cipher, &key[..16]);
    both_ways(rt, cipher, &key[..24]);
    both_ways(rt, cipher, &key);
}

fn main(rt: HostRuntime) {
    three_lengths(&rt, 1);
    three_lengths(&rt, 2);
    both_ways(&rt, 3, b"0123456789abcdef");
    both_ways(&rt, 4, b"0123456789abcdef");
}
