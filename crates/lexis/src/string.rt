// Strings: from a quote to the next one that no backslash stands before.
ghost use Rattle.std.specs.Prelude.{◌≡◌, false, ◌<◌, drop, MatchOption};
ghost use Rattle.lexis.specs.Strings.{closing};

// How many bytes from `at` on end the string that is open there, its closing quote among them; none where a newline, a backslash
// that stands before no quote, or the text's end comes first.
pub fn closing(text: &[u8], at: usize) -> Option<usize>
    ensures { MatchOption result (closing false (drop at text.now) ≡ 0) (λ end. (0 < end) × (end ≡ closing false (drop at text.now))) }
{
    let mut escaped = false;
    for end in at..text.len() {
        let byte = text[end];
        if escaped {
            if byte != b'"' {
                return None;
            }
            escaped = false;
        } else {
            if byte == b'"' {
                return Some(end + 1 - at);
            }
            if byte == b'\n' {
                return None;
            }
            escaped = byte == b'\\';
        }
    }
    None
}
