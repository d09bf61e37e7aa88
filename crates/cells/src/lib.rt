// A line of a table cut into cells, as spreadsheets write them: at commas, a cell perhaps in quotes (docs/BENCH.md, 'The table').
#![tactic(auto)]

ghost use Rattle.std.specs.Prelude.{◌≡◌, length};
ghost use Rattle.cells.specs.Cells.{is_blank, behind_blanks, before_blanks, plain, in_quotes, ends, cells, text_of};
ghost use Rattle.cells.specs.Cells as page;
ghost use Rattle.cells.specs.code.Found.{Is, Holds};

// A cell's text, and what follows: from the comma on, or nothing.
#[derive(Clone, Copy)]
pub struct Cell<'a> {
    text: &'a [u8],
    rest: &'a [u8],
}

// What a line holds: how many cells, and whether any has a text; `good` where no quote is out of place.
// A flag beside numbers: `Holds` tells these of a line with a quote out of place too.
#[derive(Clone, Copy)]
pub struct Line {
    pub good: bool,
    pub cells: usize,
    pub filled: bool,
}

fn is_blank(c: u8) -> bool
    ensures { result ≡ is_blank c }
{
    (c == b' ') | (c == b'\t')
}

// A text without the blanks at its front.
fn after_blanks(text: &[u8]) -> &[u8]
    ensures { result.now ≡ behind_blanks text.now }
{
    let mut rest = text;
    while let [c, more @ ..] = rest {
        if !is_blank(*c) {
            return rest;
        }
        rest = more;
    }
    rest
}

// A text without the blanks at its end.
fn before_blanks(text: &[u8]) -> &[u8]
    ensures { result.now ≡ before_blanks text.now }
{
    let mut rest = text;
    while let [front @ .., c] = rest {
        if !is_blank(*c) {
            return rest;
        }
        rest = front;
    }
    rest
}

// A text without the blanks around it.
pub fn trimmed(text: &[u8]) -> &[u8]
    ensures { result.now ≡ page.trimmed text.now }
{
    before_blanks(after_blanks(text))
}

// The bytes between two places, or none where these are not in order.
pub fn part(line: &[u8], from: usize, to: usize) -> &[u8]
    ensures { result.now ≡ page.part from to line.now }
{
    if to > line.len() {
        return &[];
    }
    if from > to {
        return &[];
    }
    &line[from..to]
}

// The first place with a comma or a quote, or the end.
fn comma_or_quote(text: &[u8]) -> usize
    ensures { result ≡ length (plain text.now) }
{
    for (i, c) in text.iter().enumerate() {
        if (*c == b',') | (*c == b'"') {
            return i;
        }
    }
    text.len()
}

// The first quote that isn't doubled, or the end.
fn closing_quote(text: &[u8]) -> usize
    ensures { result ≡ length (in_quotes text.now) }
{
    let mut rest = text;
    while let [c, more @ ..] = rest {
        rest = more;
        if *c == b'"' {
            match more {
                [b'"', beyond @ ..] => rest = beyond,
                _ => return text.len() - more.len() - 1,
            }
        }
    }
    text.len()
}

// A comma at the front, or nothing.
fn ends(rest: &[u8]) -> bool
    ensures { result ≡ ends rest.now }
{
    match rest {
        [c, ..] => *c == b',',
        [] => true,
    }
}

// A cell of this text, if it ends where the rest begins.
fn ended<'a>(text: &'a [u8], rest: &'a [u8]) -> Option<Cell<'a>>
    ensures { Is (page.ended text.now rest.now) result }
{
    if ends(rest) {
        return Some(Cell { text, rest });
    }
    None
}

// A cell in quotes, from behind the first on.
fn quoted(text: &[u8]) -> Option<Cell>
    ensures { Is (page.quoted text.now) result }
{
    let (inside, closing) = text.split_at(closing_quote(text));
    match closing {
        [b'"', rest @ ..] => ended(inside, after_blanks(rest)),
        _ => None,
    }
}

// A cell that is not in quotes.
fn bare(text: &[u8]) -> Option<Cell>
    ensures { Is (page.bare text.now) result }
{
    let (plain, rest) = text.split_at(comma_or_quote(text));
    ended(before_blanks(plain), rest)
}

// The cell at the front of a text, if no quote of it is out of place.
fn cut(text: &[u8]) -> Option<Cell>
    ensures { Is (page.cell text.now) result }
{
    let start = after_blanks(text);
    match start {
        [b'"', inside @ ..] => quoted(inside),
        _ => bare(start),
    }
}

// All cells of a line gone through.
pub fn count(line: &[u8]) -> Line
    ensures { Holds (cells line.now) result }
{
    let mut rest = line;
    let mut cells = 0;
    let mut filled = false;
    loop {
        cells += 1;
        let Some(cell) = cut(rest) else {
            return Line {
                good: false,
                cells,
                filled,
            };
        };
        filled |= cell.text.len() > 0;
        match cell.rest {
            [_, more @ ..] => rest = more,
            [] => {
                return Line {
                    good: true,
                    cells,
                    filled,
                };
            }
        }
    }
}

// The text of cell n, counted from 0.
pub fn text(line: &[u8], n: usize) -> &[u8]
    ensures { result.now ≡ text_of (cells line.now) n }
{
    let mut rest = line;
    for _ in 0..n {
        match cut(rest) {
            Some(
                Cell {
                    rest: [_, more @ ..],
                    ..
                },
            ) => rest = more,
            _ => return &[],
        }
    }
    match cut(rest) {
        Some(cell) => cell.text,
        None => &[],
    }
}
