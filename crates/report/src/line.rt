// Lines of a text: whether one stands at a place, where it ends, its bytes, and where the next one begins.
ghost use Rattle.std.specs.Prelude.{◌≡◌, ◌+◌};
ghost use Rattle.texts.specs.Place.{place_from};
ghost use Rattle.texts.specs.Parts.{bytes_in};
ghost use Rattle.report.specs.Lines.{has_line, line_end, next_line, line_at, behind_line, WholeLine};

use lexis::run::{Run, run_end};
use texts::place::{Place, behind, past};

// Is there a line from `at` on? At the text's end, so behind a last newline, there is none.
pub fn has_line(text: &[u8], at: usize) -> bool
    ensures { result ≡ has_line text.now at }
{
    at < text.len()
}

// The end of the line that starts at `at`: before its newline, or at the text's end.
pub fn line_end(text: &[u8], at: usize) -> usize
    ensures { result ≡ line_end text.now at }
{
    run_end(text, at, Run::Line)
}

// Where the line behind the one that ends at `end` begins: behind its newline, or at the text's end where it has none.
#[tactic(auto, unfolding(crate::specs::Lines::next_line))]
pub fn next_line(text: &[u8], end: usize) -> usize
    ensures { result ≡ next_line text.now end }
{
    if end < text.len() {
        end + 1
    } else {
        text.len()
    }
}

// Where the line behind one begins, with its line and column; at the text's end where the line has no newline.
pub fn line_behind(text: &[u8], line: Place) -> Place
    requires { WholeLine text.now line }
    ensures { result ≡ place_from text.now (next_line text.now (line.start + line.len)) 0 }
{
    let end = past(line);
    let byte = end.start;
    if byte < text.len() {
        return behind(end, text[byte]);
    }
    end
}

// The line that starts at `at`, without its newline; empty where there is none.
pub fn line_at(text: &[u8], at: usize) -> &[u8]
    ensures { result.now ≡ bytes_in text.now (line_at text.now at) }
{
    if !has_line(text, at) {
        return &text[0..0];
    }
    let end = line_end(text, at);
    &text[at..end]
}

// Where the line behind the one that starts at `at` begins.
pub fn behind_line(text: &[u8], at: usize) -> usize
    ensures { result ≡ behind_line text.now at }
{
    next_line(text, line_end(text, at))
}
