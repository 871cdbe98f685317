// The class of a byte.
ghost use Rattle.std.specs.Prelude.{◌≡◌};
ghost use Rattle.lexis.specs.Class.{class_of, is_word_class, is_digit};

// What a byte is by its value.
#[derive(Clone, Copy, PartialEq, Eq)]
pub enum Class {
    Lower,
    Upper,
    Digit,
    Underscore,
    Other,
}

// The class of a byte: ranges for letters and digits, the underscore, and one answer for every other byte. What is below the digits is told
// first, for most tokens are marks, and the small letters next, for most bytes of names are.
#[tactic(auto, unfolding(crate::specs::Class::class_of))]
pub fn class_of(byte: u8) -> Class
    ensures { result ≡ class_of byte }
{
    if byte < b'0' {
        return Class::Other;
    }
    if b'a' <= byte {
        return if byte <= b'z' {
            Class::Lower
        } else {
            Class::Other
        };
    }
    if byte <= b'9' {
        return Class::Digit;
    }
    if byte <= b'Z' {
        return if b'A' <= byte {
            Class::Upper
        } else {
            Class::Other
        };
    }
    if byte == b'_' {
        Class::Underscore
    } else {
        Class::Other
    }
}

// Does a byte of the class go on a name or a variable?
pub(crate) fn is_word(class: Class) -> bool
    ensures { result ≡ is_word_class class }
{
    class != Class::Other
}

// Is a byte of the class a digit?
pub(crate) fn is_digit(class: Class) -> bool
    ensures { result ≡ is_digit class }
{
    class == Class::Digit
}
