// What stands between two tokens: blanks and comments. A newline of a program stands nowhere else, so its lines are counted here alone.
ghost use Rattle.std.specs.Prelude.{◌≡◌, true, ◌+◌, drop};
ghost use Rattle.lexis.specs.Run.{is_blank};
ghost use Rattle.texts.specs.Prefix.{prefix_len};
ghost use Rattle.tokens.specs.Gap.{starts_comment, gap};
ghost use Rattle.texts.specs.Place.{Stands};

use lexis::run::{Run, byte_at, is_blank, run_end};
use texts::place::{Place, along, behind};

// Does a comment start at `at`? At `%*` none does.
fn starts_comment(text: &[u8], at: usize) -> bool
    ensures { result ≡ starts_comment (drop at text.now) }
{
    if byte_at(text, at) != b'%' {
        return false;
    }
    byte_at(text, at + 1) != b'*'
}

// Behind the blanks of a program that stand at `at`, each newline counted.
fn blanks_end(text: &[u8], at: Place) -> Place
    requires { Stands text.now at }
    ensures { (result.start ≡ at.start + prefix_len (is_blank true) (drop at.start text.now)) × Stands text.now result }
{
    let mut end = at;
    for here in at.start..text.len() {
        let byte = text[here];
        if !is_blank(byte, true) {
            return end;
        }
        end = behind(end, byte);
    }
    end
}

// The first place at or after `at` where a token starts, or none can: behind the blanks of a facts line, or the blanks and comments
// of a program.
pub fn gap_end(text: &[u8], at: Place, program: bool) -> Place
    requires { Stands text.now at }
    ensures { (result.start ≡ at.start + gap program (drop at.start text.now)) × Stands text.now result }
{
    if !program {
        return along(at, run_end(text, at.start, Run::LineBlanks));
    }
    let mut end = at;
    loop {
        end = blanks_end(text, end);
        if !starts_comment(text, end.start) {
            return end;
        }
        end = along(end, run_end(text, end.start, Run::Line));
    }
}
