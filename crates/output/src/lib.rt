// The solver's output as a whole: its report, the facts line behind ANSWER, and the lines behind the report.
#![tactic(auto)]

ghost use Rattle.std.specs.Prelude.{◌≡◌, ◌+◌, IfErr};
ghost use Rattle.texts.specs.Place.{Stands, Countable};
ghost use Rattle.output.specs.Answers.{reported, counted_on, line_fields, Closes};
ghost use Rattle.output.specs.Tables.{tables, Lent, FillsOutput};

use factline::line::{put_predicates, read_line};
use report::around::{Found, out_of_place};
use report::find_report;
use report::word::Word;
use texts::place::{Place, TEXT_START, along, with_len};
use texts::refusal::{Refusal, Refused};
use texts::sizes::MOST_TEXT;

// What an output says: the report's word, and with ANSWER the line of the facts and their number.
#[derive(Clone, Copy)]
pub struct OutputRead {
    pub word: Word,
    pub line: Place,
    pub count: usize,
}

fn reported(word: Word, line: Place, count: usize) -> OutputRead
    ensures { result ≡ reported word line count }
{
    OutputRead { word, line, count }
}

// A place on a line, as a place of the output.
fn on_line(line: Place, place: Place) -> Place
    requires { Countable line (line.start + place.start) }
    ensures { result ≡ counted_on line place }
{
    with_len(along(line, line.start + place.start), place.len)
}

// What a facts line says: its refusal, at its place in the output, or ANSWER and the number of its facts.
fn of_line(line: Place, read: Result<usize, Refused>) -> Result<OutputRead, Refused>
    requires { IfErr read (λ fault. Countable line (line.start + fault.place.start)) }
    ensures { result ≡ line_fields line read }
{
    match read {
        Ok(count) => Ok(reported(Word::Answer, line, count)),
        Err(fault) => Err(Refused {
            refusal: fault.refusal,
            place: on_line(line, fault.place),
        }),
    }
}

// What has been said before the lines from `at` on. Where that is no refusal, the first of them that may not stand behind the report is
// refused.
fn closed(
    output: &[u8],
    at: Place,
    said: Result<OutputRead, Refused>,
) -> Result<OutputRead, Refused>
    requires { Stands output.now at }
    ensures { Closes output.now at.start said result }
{
    let read = said?;
    match out_of_place(output, at) {
        Found::End(_) => Ok(read),
        Found::Line(place) => Err(Refused {
            refusal: Refusal::Misplaced,
            place,
        }),
    }
}

// The whole output: 1; the leftmost of 2, 3 and 4; or the report, and behind ANSWER the facts line and its facts, which go into
// the tables: their rows, with their names numbered behind the program's; their predicates; where they start, and how long they are.
pub fn read_output<'a>(
    program: &'a [u8],
    output: &'a [u8],
    names: &mut [u32],
    facts: &mut [u64],
    predicates: &mut [u64],
    starts: &mut [u32],
    lengths: &mut [u32],
) -> Result<OutputRead, Refused>
    requires { Lent program.now output.now (tables names.old facts.old predicates.old starts.old lengths.old) }
    ensures { FillsOutput program.now output.now (tables names.old facts.old predicates.old starts.old lengths.old) result (tables names.new facts.new predicates.new starts.new lengths.new) }
{
    if MOST_TEXT < output.len() {
        return Err(Refused {
            refusal: Refusal::LongText,
            place: TEXT_START,
        });
    }
    let report = find_report(output)?;
    let line = report.facts;
    let next = report.next;
    match report.word {
        Word::Answer => {
            let read = read_line(program, output, line, names, facts, starts, lengths);
            put_predicates(&*facts, predicates, read.unwrap_or(0));
            closed(output, next, of_line(line, read))
        }
        Word::Inconsistent => closed(
            output,
            next,
            Ok(reported(Word::Inconsistent, TEXT_START, 0)),
        ),
        Word::Unknown => closed(output, next, Ok(reported(Word::Unknown, TEXT_START, 0))),
    }
}
