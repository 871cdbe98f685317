// The bytes that a place or a span names, whether two names are the same, and the lesser of two counts.
ghost use Rattle.std.specs.Prelude.{min, ◌≡◌};
ghost use Rattle.texts.specs.Parts.{bytes_in, part};
ghost use Rattle.meaning.specs.Values.{same_bytes};

use crate::place::{Place, Span, span_from};

// The bytes of a span; of a span that reaches past the text, those that are there.
pub fn bytes_in(text: &[u8], span: Span) -> &[u8]
    ensures { result.now ≡ bytes_in text.now span }
{
    let length = text.len();
    let start = span.start;
    if length <= start {
        return &text[length..];
    }
    if length - start <= span.len {
        return &text[start..];
    }
    let end = start + span.len;
    &text[start..end]
}

// The bytes of a place.
pub fn part(text: &[u8], place: Place) -> &[u8]
    ensures { result.now ≡ part text.now place }
{
    bytes_in(text, span_from(place.start, place.len))
}

// Are the bytes the same? Lengths are compared first, and then bytes from the last one back: names that share a long start differ there.
pub fn same_bytes(a: &[u8], b: &[u8]) -> bool
    ensures { result ≡ same_bytes a.now b.now }
{
    if a.len() != b.len() {
        return false;
    }
    // Counted up: of `(0..a.len()).rev()` the compiler makes an instruction more for each byte.
    for seen in 0..a.len() {
        let i = a.len() - 1 - seen;
        if a[i] != b[i] {
            return false;
        }
    }
    true
}

// The lesser of two counts: how many things there are, or for how many there is room.
pub fn least(count: usize, most: usize) -> usize
    ensures { result ≡ min count most }
{
    count.min(most)
}
