// A table read onto a card: every line put by the proved call.
ghost use Rattle.std.specs.Prelude.{◌≡◌, true, false, ◌<◌, suc, length, drop};
ghost use Rattle.card_table.specs.Table as page;
ghost use Rattle.card_table.specs.code.Line.{line_of};
ghost use Rattle.card_table.specs.code.State.{read_of};

use card_fields::{Fields, laid};
use card_rules::Field;
use cells::{part, text};
use record_words::{named, record};
use spelling::word;

// Whether every line was right, and how many records were put.
// A flag with a number beside it: the promise of `read` tells how many were put of a table with a wrong line too.
#[derive(Clone, Copy)]
pub struct Table {
    pub good: bool,
    pub records: usize,
}

// What follows a byte-order mark, or all.
fn without_mark(table: &[u8]) -> &[u8]
    ensures { result.now ≡ page.behind_mark table.now }
{
    match table {
        [239, 187, 191, rest @ ..] => rest,
        _ => table,
    }
}

// The place of the first line feed, or the end.
fn line_feed(text: &[u8]) -> usize
    ensures { result ≡ length (line_of text.now) }
{
    for (i, c) in text.iter().enumerate() {
        if *c == b'\n' {
            return i;
        }
    }
    text.len()
}

// The first line, and what follows its line feed.
fn first_line(text: &[u8]) -> (&[u8], &[u8])
    ensures line { result.0.now ≡ line_of text.now }
    ensures rest { result.1.now ≡ drop (suc (length (line_of text.now))) text.now }
{
    let end = line_feed(text);
    let line = part(text, 0, end);
    let rest = part(text, end + 1, text.len());
    (line, rest)
}

// A line without a carriage return at its end.
fn without_return(line: &[u8]) -> &[u8]
    ensures { result.now ≡ page.without_return line.now }
{
    match line {
        [front @ .., b'\r'] => front,
        _ => line,
    }
}

fn is_header(line: &[u8]) -> bool
    ensures { result ≡ page.is_header line.now }
{
    let l = cells::count(line);
    if !l.good {
        return false;
    }
    if l.cells != 6 {
        return false;
    }
    let header = b"recipe,segment,kind,target,rate,hold";
    for k in 0..6 {
        if !word::is(text(line, k), text(header, k)) {
            return false;
        }
    }
    true
}

// The line on which the record of these fields' pair stands.
fn line_of(card: &[u8], lines: &[usize], f: Fields) -> usize {
    for (i, line) in lines.iter().enumerate() {
        let other = card_fields::at(card, i);
        if other.recipe == f.recipe && other.segment == f.segment {
            return *line;
        }
    }
    0
}

fn note(lines: &mut [usize], n: usize, number: usize) {
    if let Some(line) = lines.get_mut(n) {
        *line = number;
    }
}

fn already(rt: &impl Print, card: &[u8], lines: &[usize], number: usize, f: Fields) {
    let earlier = line_of(card, lines, f) as u64;
    named::sentence(
        rt,
        number,
        b"recipe $ segment $ stands on line $ already",
        &[u64::from(f.recipe), u64::from(f.segment), earlier],
    );
}

fn wrong(before: Table) -> Table
    ensures { result ≡ record { good = false; records = before.records } }
{
    Table {
        good: false,
        ..before
    }
}

// A record put after those that are there, if its pair is new and there is room.
#[tactic(auto, unfolding(crate::specs::Table::with_record, card_slots::specs::Find::find_part))]
fn put(
    rt: &impl Print,
    card: &mut [u8],
    lines: &mut [usize],
    before: Table,
    number: usize,
    f: Fields,
) -> Table
    requires { before.records < number }
    ensures { read_of result card.new ≡ page.with_record (read_of before card.old) f }
{
    if card::find(card, f.recipe as u64, f.segment as u64).len() > 0 {
        already(rt, card, lines, number, f);
        return wrong(before);
    }
    if card::put(card, &laid(f)).is_err() {
        named::plain(
            rt,
            number,
            b"256 records are on the card already, and no more have room",
        );
        return wrong(before);
    }
    note(lines, before.records, number);
    Table {
        good: before.good,
        records: before.records + 1,
    }
}

// The record of a line of six cells, if all of them are right.
fn record_of(rt: &impl Print, number: usize, line: &[u8]) -> Option<Fields>
    ensures { result ≡ page.record_in line.now }
{
    let recipe = record::number(rt, number, Field::Recipe, text(line, 0));
    let segment = record::number(rt, number, Field::Segment, text(line, 1));
    let kind = record::kind(rt, number, text(line, 2));
    let target = record::number(rt, number, Field::Target, text(line, 3));
    let rate = record::number(rt, number, Field::Rate, text(line, 4));
    let hold = record::number(rt, number, Field::Hold, text(line, 5));
    record::of(recipe, segment, kind, target, rate, hold)
}

// A line read and put. Where it is wrong, that is said.
fn row(
    rt: &impl Print,
    card: &mut [u8],
    lines: &mut [usize],
    before: Table,
    number: usize,
    line: &[u8],
) -> Table
    requires { before.records < number }
    ensures { read_of result card.new ≡ page.with_line (read_of before card.old) line.now }
{
    let l = cells::count(line);
    if !l.good {
        named::plain(rt, number, b"a quote is out of place");
        return wrong(before);
    }
    if !l.filled {
        return before;
    }
    if l.cells != 6 {
        named::sentence(
            rt,
            number,
            b"$ fields stand where 6 are wanted",
            &[l.cells as u64],
        );
        return wrong(before);
    }
    match record_of(rt, number, line) {
        Some(f) => put(rt, card, lines, before, number, f),
        None => wrong(before),
    }
}

// The lines that follow the header.
fn rows(rt: &impl Print, table: &[u8], card: &mut [u8], lines: &mut [usize]) -> Table
    ensures { read_of result card.new ≡ page.with_lines (page.read_as true 0 card.old) (page.lines table.now) }
{
    let mut read = Table {
        good: true,
        records: 0,
    };
    let mut number = 1;
    let mut rest = table;
    while !rest.is_empty() {
        let (line, more) = first_line(rest);
        number += 1;
        read = row(rt, card, lines, read, number, without_return(line));
        rest = more;
    }
    read
}

// The table's records put on the card. `lines` gets the line that each stands on: it is beside the card, whose bytes alone the
// promise names, and both are the caller's, as no heap may be used.
pub fn read(rt: &impl Print, table: &[u8], card: &mut [u8], lines: &mut [usize]) -> Table
    ensures { read_of result card.new ≡ page.read_table table.now card.old }
{
    let (header, rest) = first_line(without_mark(table));
    if !is_header(without_return(header)) {
        named::plain(
            rt,
            1,
            b"the header is not recipe,segment,kind,target,rate,hold",
        );
        return Table {
            good: false,
            records: 0,
        };
    }
    rows(rt, rest, card, lines)
}
