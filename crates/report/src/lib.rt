// The solver's output by its lines: what may stand around the report, the report, the line of the facts, and the solver's code.
#![tactic(auto)]

ghost use Rattle.std.specs.Prelude.{◌≡◌};
ghost use Rattle.texts.specs.Place.{text_start, Stands};
ghost use Rattle.report.specs.Lines.{lines_from};
ghost use Rattle.report.specs.Around.{OutOfPlace};
ghost use Rattle.report.specs.Report.{refused, found, reported, Reported};

use around::{Found, out_of_place};
use line::{has_line, line_at, line_behind};
use texts::parts::part;
use texts::place::{Place, TEXT_START, with_len};
use texts::refusal::{Refusal, Refused};
use word::{Word, starts_with};

pub mod around;
pub mod line;
pub mod reader;
pub mod word;

// What the lines of an output say: the report's word, with ANSWER the line of the facts, and where the lines behind the report begin.
// The facts line stands beside the word and not in it: `Opened` and `Behind` of `output` go by the word alone.
#[derive(Clone, Copy)]
pub struct Report {
    pub word: Word,
    pub facts: Place,
    pub next: Place,
}

// A report that has no line of facts.
fn claim(word: Word, next: Place) -> Report
    ensures { Ok result ≡ found word text_start next }
{
    Report {
        word,
        facts: TEXT_START,
        next,
    }
}

// Refusal 2, for a line out of place, and for a report or a facts line that is missing.
fn misplaced(place: Place) -> Refused
    ensures { Err result ≡ refused place }
{
    Refused {
        refusal: Refusal::Misplaced,
        place,
    }
}

// ANSWER, where the lines behind it begin at `at`: the first of them holds the facts.
fn answer(output: &[u8], at: Place) -> Result<Report, Refused>
    requires { Stands output.now at }
    ensures { result ≡ reported output.now Word.Answer (lines_from output.now at.start) }
{
    if !has_line(output, at.start) {
        return Err(misplaced(with_len(at, 0)));
    }
    let line = line_at(output, at.start);
    let facts = with_len(at, line.len());
    Ok(Report {
        word: Word::Answer,
        facts,
        next: line_behind(output, facts),
    })
}

// The report, by the first line that is neither empty nor starts with `%`; or refusal 2 at that line, and at the output's end where there is
// no line behind ANSWER.
fn report_of(output: &[u8], line: Place) -> Result<Report, Refused>
    requires { OutOfPlace output.now 0 (Found.Line line) }
    ensures { Reported output.now result }
{
    let bytes = part(output, line);
    let next = line_behind(output, line);
    if starts_with(bytes, b"ANSWER") {
        return answer(output, next);
    }
    if starts_with(bytes, b"INCONSISTENT") {
        return Ok(claim(Word::Inconsistent, next));
    }
    if starts_with(bytes, b"UNKNOWN") {
        return Ok(claim(Word::Unknown, next));
    }
    Err(misplaced(line))
}

// The report, whose first line is the first that is neither empty nor starts with `%`; or refusal 2 at that line, and at the
// output's end where there is no such line, or no line behind ANSWER.
pub fn find_report(output: &[u8]) -> Result<Report, Refused>
    ensures { Reported output.now result }
{
    match out_of_place(output, TEXT_START) {
        Found::End(end) => Err(misplaced(end)),
        Found::Line(line) => report_of(output, line),
    }
}
