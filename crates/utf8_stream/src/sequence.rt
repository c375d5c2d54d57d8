//! What stands at the front of some bytes.
ghost use Rattle.std.specs.Prelude.{◌≡◌, ◌<◌, length};
ghost use Rattle.text_model.specs.Decoding.{front};
ghost use Rattle.utf8_stream.specs.Sequence.{front_of, Encodes};

/// A well-formed sequence as the Unicode Standard has it in its Table 3-7, all that there is of one, or neither.
#[derive(Clone, Copy, Drop)]
pub(crate) enum First {
    /// The scalar value, and how many bytes encode it.
    Whole(char, usize),
    Part,
    Neither,
}

/// Reads what the bytes begin with.
#[inline]
pub(crate) fn read_first(bytes: &[u8]) -> First
    requires { 0 < length bytes.now }
    ensures front { front bytes.now ≡ front_of result bytes.now }
    ensures encodes { Encodes result bytes.now }
{
    match bstr::decode_utf8(bytes) {
        (Some(c), count) => First::Whole(c, count),
        (None, count) => {
            if count == bytes.len() && 0xC2 <= bytes[0] && bytes[0] <= 0xF4 {
                First::Part
            } else {
                First::Neither
            }
        }
    }
}
