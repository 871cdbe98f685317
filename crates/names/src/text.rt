// The bytes of a span of the two lent texts, where the output counts on behind the program.
ghost use Rattle.std.specs.Prelude.{◌≡◌};
ghost use Rattle.names.specs.Texts.{bytes_at};

use texts::parts::bytes_in;
use texts::place::{Span, span_from};

// The bytes of a span, a part of whichever text it starts in; of a span that reaches past that text, those that are there.
pub fn bytes_at<'a>(program: &'a [u8], output: &'a [u8], span: Span) -> &'a [u8]
    ensures { result.now ≡ bytes_at program.now output.now span }
{
    let start = span.start;
    if start < program.len() {
        return bytes_in(program, span);
    }
    let behind = start - program.len();
    bytes_in(output, span_from(behind, span.len))
}
