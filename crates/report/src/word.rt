// The words that a report starts with, and the solver's code that goes with each.
ghost use Rattle.std.specs.Prelude.{◌≡◌};
ghost use Rattle.report.specs.Word.{GoesWith, starts_with, agrees};

#[derive(Clone, Copy, PartialEq, Eq)]
pub enum Word {
    Answer,
    Inconsistent,
    Unknown,
}

// The code that the solver ends with when it reports the word.
impl From<Word> for u64 {
    ghost from_gives = { GoesWith };

    fn from(word: Word) -> u64 {
        match word {
            Word::Answer => 10,
            Word::Inconsistent => 20,
            Word::Unknown => 1,
        }
    }
}

// Is the code the one that goes with the word?
pub fn agrees(word: Word, code: u64) -> bool
    ensures { result ≡ agrees word code }
{
    code == u64::from(word)
}

// Does the line start with these bytes?
pub fn starts_with(line: &[u8], word: &[u8]) -> bool
    ensures { result ≡ starts_with word.now line.now }
{
    line.starts_with(word)
}
