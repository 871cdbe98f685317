// Places, which are parts of a text with the line and column of their start; counting on from one; and spans of bytes.
ghost use Rattle.std.specs.Prelude.{◌≡◌, suc, ◌+◌};
ghost use Rattle.texts.specs.Place.{with_len, along, past, behind, Countable};
ghost use Rattle.texts.specs.Places.{span_from};

// A part of a text: its first byte, counted from 0, and its length; and the line and the column of that byte, counted from 1.
// Where reading stands is such a part, and empty.
#[derive(Clone, Copy)]
pub struct Place {
    pub start: usize,
    pub len: usize,
    pub line: usize,
    pub column: usize,
}

// Bytes that follow each other, whatever line they stand on.
#[derive(Clone, Copy)]
pub struct Span {
    pub start: usize,
    pub len: usize,
}

// Empty, at a text's start: where reading begins, and the place of a fault that no part of the text holds.
pub const TEXT_START: Place = Place {
    start: 0,
    len: 0,
    line: 1,
    column: 1,
};

// The part of this length that starts where another does.
pub fn with_len(place: Place, len: usize) -> Place
    ensures { result ≡ with_len place len }
{
    Place { len, ..place }
}

// A byte further on the same line.
pub fn along(place: Place, byte: usize) -> Place
    requires { Countable place byte }
    ensures { result ≡ along place byte }
{
    Place {
        start: byte,
        len: 0,
        line: place.line,
        column: place.column + (byte - place.start),
    }
}

// Behind a part of one line.
pub fn past(place: Place) -> Place
    requires { Countable place (place.start + place.len) }
    ensures { result ≡ past place }
{
    along(place, place.start + place.len)
}

// Behind a byte: a newline ends its line, and every other byte is one column.
#[tactic(auto, unfolding(crate::specs::Place::behind))]
pub fn behind(place: Place, byte: u8) -> Place
    requires { Countable place (suc place.start) }
    ensures { result ≡ behind place byte }
{
    let start = place.start + 1;
    if byte == b'\n' {
        return Place {
            start,
            len: 0,
            line: place.line + 1,
            column: 1,
        };
    }
    along(place, start)
}

pub fn span_from(start: usize, len: usize) -> Span
    ensures { result ≡ span_from start len }
{
    Span { start, len }
}
