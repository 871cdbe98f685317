// The kinds of tokens, their numbers, and the kinds of marks and names.
ghost use Rattle.std.specs.Prelude.{◌≡◌};
ghost use Rattle.lexis.specs.Kind.{kind_number};
ghost use Rattle.lexis.specs.Spelling.{single_kind, pair_kind, name_kind};

// What a token is.
#[derive(Clone, Copy, PartialEq, Eq)]
pub enum Kind {
    Name,
    // the keyword `not`
    Not,
    Variable,
    // `_`
    Anonymous,
    Number,
    // `(`
    Open,
    // `)`
    Close,
    // `,`
    Comma,
    // `.`
    Dot,
    // `:-`
    If,
    // `-`
    Minus,
    // `+`
    Plus,
    // `*`
    Times,
    // `=`
    Equal,
    // `!=`
    Unequal,
    // `<>`, which means the same and is spelled otherwise: a kind of its own, so that a kind says how its token is spelled
    AlsoUnequal,
    // `<`
    Less,
    // `<=`
    AtMost,
    // `>`
    Greater,
    // `>=`
    AtLeast,
    // the end of the text
    End,
    // a byte where no token starts
    Stray,
    // from a quote to a quote
    String,
    // `|`
    Bar,
}

// The number of each kind, by which a caller branches. The operations stand together, and so do the comparisons; only a string and `|` have a
// greater number than a stray byte.
pub const NAME: u8 = 0;

pub const NOT: u8 = 1;

pub const VARIABLE: u8 = 2;

pub const ANONYMOUS: u8 = 3;

pub const NUMBER: u8 = 4;

pub const OPEN: u8 = 5;

pub const CLOSE: u8 = 6;

pub const COMMA: u8 = 7;

pub const DOT: u8 = 8;

pub const IF: u8 = 9;

pub const MINUS: u8 = 10;

pub const PLUS: u8 = 11;

pub const TIMES: u8 = 12;

pub const EQUAL: u8 = 13;

pub const UNEQUAL: u8 = 14;

pub const ALSO_UNEQUAL: u8 = 15;

pub const LESS: u8 = 16;

pub const AT_MOST: u8 = 17;

pub const GREATER: u8 = 18;

pub const AT_LEAST: u8 = 19;

pub const END: u8 = 20;

pub const STRAY: u8 = 21;

pub const STRING: u8 = 22;

pub const BAR: u8 = 23;

// The number of a kind.
pub fn kind_number(kind: Kind) -> u8
    ensures { result ≡ kind_number kind }
{
    match kind {
        Kind::Name => NAME,
        Kind::Not => NOT,
        Kind::Variable => VARIABLE,
        Kind::Anonymous => ANONYMOUS,
        Kind::Number => NUMBER,
        Kind::Open => OPEN,
        Kind::Close => CLOSE,
        Kind::Comma => COMMA,
        Kind::Dot => DOT,
        Kind::If => IF,
        Kind::Minus => MINUS,
        Kind::Plus => PLUS,
        Kind::Times => TIMES,
        Kind::Equal => EQUAL,
        Kind::Unequal => UNEQUAL,
        Kind::AlsoUnequal => ALSO_UNEQUAL,
        Kind::Less => LESS,
        Kind::AtMost => AT_MOST,
        Kind::Greater => GREATER,
        Kind::AtLeast => AT_LEAST,
        Kind::End => END,
        Kind::Stray => STRAY,
        Kind::String => STRING,
        Kind::Bar => BAR,
    }
}

// The mark of one byte that a byte is, or `Stray`.
#[tactic(auto, unfolding(crate::specs::Spelling::single_kind))]
pub fn single_kind(byte: u8) -> Kind
    ensures { result ≡ single_kind byte }
{
    match byte {
        b'(' => Kind::Open,
        b')' => Kind::Close,
        b',' => Kind::Comma,
        b'.' => Kind::Dot,
        b'-' => Kind::Minus,
        b'+' => Kind::Plus,
        b'*' => Kind::Times,
        b'=' => Kind::Equal,
        b'<' => Kind::Less,
        b'>' => Kind::Greater,
        b'|' => Kind::Bar,
        _ => Kind::Stray,
    }
}

// The mark of two bytes that two bytes are, or `Stray`.
#[tactic(auto, unfolding(crate::specs::Spelling::pair_kind))]
pub fn pair_kind(first: u8, second: u8) -> Kind
    ensures { result ≡ pair_kind first second }
{
    match (first, second) {
        (b':', b'-') => Kind::If,
        (b'!', b'=') => Kind::Unequal,
        (b'<', b'=') => Kind::AtMost,
        (b'<', b'>') => Kind::AlsoUnequal,
        (b'>', b'=') => Kind::AtLeast,
        _ => Kind::Stray,
    }
}

// The kind of a word of `len` bytes that starts with a lower letter, by its first three bytes: `not` is a keyword.
#[tactic(auto, unfolding(crate::specs::Spelling::name_kind))]
pub fn name_kind(len: usize, first: u8, second: u8, third: u8) -> Kind
    ensures { result ≡ name_kind len first second third }
{
    match (len, first, second, third) {
        (3, b'n', b'o', b't') => Kind::Not,
        _ => Kind::Name,
    }
}
