// Lines and fields as bytes, put into a lent buffer. What puts a part answers where it ends; a part that does not fit leaves the buffer untouched,
// and the answer is None.
#![tactic(auto)]

ghost use Rattle.std.specs.Prelude.{◌++◌, ◌∷◌, [], ◌≡◌, take};
ghost use Rattle.line.specs.Number.{base_of, least_of, numeral};
ghost use Rattle.line.specs.Line.{answer_line, cell_line, clock_line, field};
ghost use Rattle.line.specs.Gather.{Puts, Leaves, Writes, gathered, added, written};
ghost use Rattle.line.specs.Spelt.{Spelt};

// How a number is written: in decimal without zeros in front, or in hex with 8 digits at least.
#[derive(Clone, Copy)]
pub enum Style {
    Decimal,
    Hex,
}

// The most digits of a number of 64 bits.
const MOST: usize = 20;

// In an answer the word stands below 2^32, the kind below 2^40 and the code above it.
const KIND: u64 = 4294967296;

pub const CODE: u64 = 1099511627776;

const SPACE: u8 = b' ';

const NEWLINE: u8 = b'\n';

const DIGITS: [u8; 16] = *b"0123456789abcdef";

impl Style {
    fn base(self) -> u64
        ensures { result ≡ base_of self }
    {
        match self {
            Style::Decimal => 10,
            Style::Hex => 16,
        }
    }

    fn least(self) -> usize
        ensures { result ≡ least_of self }
    {
        match self {
            Style::Decimal => 1,
            Style::Hex => 8,
        }
    }
}

// Writes a number to the end of `text`, and answers where its first digit stands. By hand and not by `write!`: the bytes are promised by `numeral` of
// specs/Number.antt, which may not change, and there is no heap; the `fmt::Write` over a lent buffer that `write!` asks for is longer than this loop.
fn spell(text: &mut [u8], style: Style, number: u64) -> usize
    ensures { Spelt text.old style number result text.new }
{
    let base = style.base();
    let mut least = style.least();
    let mut rest = number;
    for i in (0..text.len()).rev() {
        if least == 0 && rest == 0 {
            return i + 1;
        }
        text[i] = DIGITS[(rest % base) as usize];
        rest /= base;
        least = least.saturating_sub(1);
    }
    0
}

// Puts `part` at `at` if there is room for it.
pub fn put_bytes(s: &mut [u8], at: usize, part: &[u8]) -> Option<usize>
    ensures { Puts s.old at part.now result s.new }
{
    let end = at.checked_add(part.len())?;
    if s.len() < end {
        return None;
    }
    wire::put_part(s, at, part);
    Some(end)
}

// Puts the first `count` bytes of a text, or all of it if it is shorter.
fn put_front(s: &mut [u8], at: usize, text: &[u8], count: usize) -> Option<usize>
    ensures { Puts s.old at (take count text.now) result s.new }
{
    put_bytes(s, at, &text[..count.min(text.len())])
}

// Adds a number and the byte after it.
fn add_number(s: &mut [u8], at: usize, style: Style, number: u64, after: u8) -> usize
    ensures { Leaves (added (gathered at s.old) (numeral style number ++ (after ∷ []))) result s.new }
{
    let mut text = [0u8; 21];
    let first = spell(&mut text[..MOST], style, number);
    text[MOST] = after;
    put_bytes(s, at, &text[first..]).unwrap_or(at)
}

// Puts a field behind others: a space, and a number in decimal.
pub fn put_field(s: &mut [u8], at: usize, number: u64) -> Option<usize>
    ensures { Puts s.old at (field number) result s.new }
{
    let mut text = [0u8; 21];
    let first = spell(&mut text[1..], Style::Decimal, number);
    text[first] = SPACE;
    put_bytes(s, at, &text[first..])
}

// Puts the line of a step: its place, and the code, the kind and the word of its answer.
pub fn reply_line(s: &mut [u8], at: usize, place: u64, answer: u64) -> Option<usize>
    ensures { Puts s.old at (answer_line place answer) result s.new }
{
    let mut line = [0u8; 128];
    let code_at = add_number(&mut line, 0, Style::Decimal, place, SPACE);
    let kind_at = add_number(&mut line, code_at, Style::Decimal, answer / CODE, SPACE);
    let word_at = add_number(
        &mut line,
        kind_at,
        Style::Decimal,
        answer / KIND % 256,
        SPACE,
    );
    let end = add_number(&mut line, word_at, Style::Hex, answer % KIND, NEWLINE);
    put_front(s, at, &line, end)
}

// Puts the line of a cell, whose parts come one by one, since `rules::Cell` isn't below this crate.
pub fn cell_line(
    s: &mut [u8],
    at: usize,
    number: u8,
    kind: u8,
    word: u32,
    stamp: u64,
    holder: u8,
) -> Option<usize>
    ensures { Puts s.old at (cell_line number kind word stamp holder) result s.new }
{
    let mut line = [0u8; 128];
    let number_at = put_bytes(&mut line, 0, b"cell ").unwrap_or(0);
    let kind_at = add_number(
        &mut line,
        number_at,
        Style::Decimal,
        u64::from(number),
        SPACE,
    );
    let word_at = add_number(&mut line, kind_at, Style::Decimal, u64::from(kind), SPACE);
    let stamp_at = add_number(&mut line, word_at, Style::Hex, u64::from(word), SPACE);
    let holder_at = add_number(&mut line, stamp_at, Style::Decimal, stamp, SPACE);
    let end = add_number(
        &mut line,
        holder_at,
        Style::Decimal,
        u64::from(holder),
        NEWLINE,
    );
    put_front(s, at, &line, end)
}

// Puts the line of the clock.
pub fn clock_line(s: &mut [u8], at: usize, clock: u64) -> Option<usize>
    ensures { Puts s.old at (clock_line clock) result s.new }
{
    let mut line = [0u8; 128];
    let clock_at = put_bytes(&mut line, 0, b"clock ").unwrap_or(0);
    let end = add_number(&mut line, clock_at, Style::Decimal, clock, NEWLINE);
    put_front(s, at, &line, end)
}

// A lent buffer, and where the next part goes: behind the one before it, or where that one did not fit in its place.
#[derive(Drop)]
pub struct Out<'a> {
    pub bytes: &'a mut [u8],
    pub end: usize,
}

impl Out<'_> {
    // Puts a part.
    pub fn put(&mut self, part: &[u8])
        ensures { Writes self.old (added (written self.old) part.now) self.new }
    {
        self.end = put_bytes(self.bytes, self.end, part).unwrap_or(self.end);
    }

    // Puts a field behind others.
    pub fn field(&mut self, number: u64)
        ensures { Writes self.old (added (written self.old) (field number)) self.new }
    {
        self.end = put_field(self.bytes, self.end, number).unwrap_or(self.end);
    }

    // Puts the line of a step.
    pub fn reply(&mut self, place: u64, answer: u64)
        ensures { Writes self.old (added (written self.old) (answer_line place answer)) self.new }
    {
        self.end = reply_line(self.bytes, self.end, place, answer).unwrap_or(self.end);
    }

    // Puts the line of a cell.
    pub fn cell(&mut self, number: u8, kind: u8, word: u32, stamp: u64, holder: u8)
        ensures { Writes self.old (added (written self.old) (cell_line number kind word stamp holder)) self.new }
    {
        let end = cell_line(self.bytes, self.end, number, kind, word, stamp, holder);
        self.end = end.unwrap_or(self.end);
    }

    // Puts the line of the clock.
    pub fn clock(&mut self, clock: u64)
        ensures { Writes self.old (added (written self.old) (clock_line clock)) self.new }
    {
        self.end = clock_line(self.bytes, self.end, clock).unwrap_or(self.end);
    }
}
