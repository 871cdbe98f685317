// A program's plain form, written into a lent buffer.
#![tactic(auto)]

ghost use Rattle.std.specs.Prelude.{min, length};
ghost use Rattle.names.specs.Table.{most_names};
ghost use Rattle.names.specs.Numbering.{Empty};
ghost use Rattle.plaintokens.specs.Promise.{Readable};
ghost use Rattle.plain.specs.Answer.{AnswersPlain, Writes};

use names::SMALL_TEXT;
use plaintokens::write_tokens;
use program::read_program;
use program::space::{literal_table, rule_table};
use texts::place::TEXT_START;
use texts::refusal::{Refusal, Refused};

// The length of the plain form of a program that is read, which then stands at the buffer's start; or the refusal of a buffer that is
// shorter. The form is no longer than the program; where that does not say that there is room, its length is found first, on a part of
// the buffer that has none.
fn write_read(program: &[u8], buffer: &mut [u8]) -> Result<usize, Refused>
    requires { Readable program.now }
    ensures { AnswersPlain program.now buffer.old result buffer.new }
{
    if program.len() <= buffer.len() {
        return Ok(write_tokens(buffer, program));
    }
    let length = write_tokens(&mut buffer[0..0], program);
    if buffer.len() < length {
        return Err(Refused {
            refusal: Refusal::ShortBuffer,
            place: TEXT_START,
        });
    }
    write_tokens(&mut buffer[0..length], program);
    Ok(length)
}

// The same of any text, with a table for the names of the program.
fn with_names(program: &[u8], names: &mut [u32], buffer: &mut [u8]) -> Result<usize, Refused>
    requires { Empty (min most_names (length program.now)) names.old }
    ensures { Writes program.now buffer.old result buffer.new }
{
    let mut rules = rule_table();
    let mut literals = literal_table();
    // There is no output; the program stands where its names would be looked for.
    // By a `match` and not by `?`: what is handed on of a refusal is then a goal of its own, which a wrong number fails.
    match read_program(program, program, names, &mut rules, &mut literals) {
        Ok(_) => write_read(program, buffer),
        Err(fault) => Err(fault),
    }
}

// The length of the plain form of a program, which then stands at the buffer's start; or the refusal of the program, or of a buffer that is
// shorter.
pub fn write_plain(program: &[u8], buffer: &mut [u8]) -> Result<usize, Refused>
    ensures { Writes program.now buffer.old result buffer.new }
{
    if program.len() <= SMALL_TEXT {
        let mut names = names::empty_small();
        return with_names(program, &mut names, buffer);
    }
    let mut names = names::empty();
    with_names(program, &mut names, buffer)
}
