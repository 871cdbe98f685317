// The buffers that a frame lends: what they are before the call, and whether they are kept.

// What an element of a buffer is before the call, by its place.
pub trait Pattern: Copy + PartialEq {
    fn pattern(at: usize) -> Self;
}

// No two places that a frame may lend to the check are alike, and none is like a round.
impl Pattern for u16 {
    fn pattern(at: usize) -> Self {
        (23040 + at % 4096) as u16
    }
}

// A byte of the writer's buffer.
impl Pattern for u8 {
    fn pattern(at: usize) -> Self {
        (7 + at % 241) as u8
    }
}

pub fn fill<T: Pattern>(buffer: &mut [T]) {
    for at in 0..buffer.len() {
        buffer[at] = T::pattern(at);
    }
}

// Is every element from one on as it was before the call?
pub fn is_kept<T: Pattern>(buffer: &[T], from: usize) -> bool {
    for at in from..buffer.len() {
        if buffer[at] != T::pattern(at) {
            return false;
        }
    }
    true
}
