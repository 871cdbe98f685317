// Bytes, written into a lent buffer as far as it reaches. The place is counted on past its end, so that a buffer
// with no room at all gives the length.
ghost use Rattle.std.specs.Prelude.{[], ◌∷◌};
ghost use Rattle.plaintokens.specs.Put.{Room, Put};

// One byte, stored where the buffer has a place for it.
pub fn put_byte(buffer: &mut [u8], at: usize, byte: u8) -> usize
    requires { Room at (byte ∷ []) }
    ensures { Put buffer.old at (byte ∷ []) result buffer.new }
{
    if at < buffer.len() {
        buffer[at] = byte;
        return at + 1;
    }
    at + 1
}

// Bytes one after the other.
pub fn put_bytes(buffer: &mut [u8], at: usize, bytes: &[u8]) -> usize
    requires { Room at bytes.now }
    ensures { Put buffer.old at bytes.now result buffer.new }
{
    let mut next = at;
    for byte in bytes {
        next = put_byte(buffer, next, *byte);
    }
    next
}
