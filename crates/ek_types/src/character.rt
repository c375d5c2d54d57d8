//! Characters: Unicode scalar values, and raw bytes that are part of none.
ghost use Rattle.std.specs.Prelude.{◌≡◌, ◌≤◌, option_map, nat_le, take, drop, if◌then◌else◌, Some};
ghost use Rattle.std.specs.Prelude.{None};
ghost use Rattle.text_model.specs.Characters.{code, from_code, encoded, Raw};
ghost use Rattle.ek_types.specs.Seen.{ch_of};

/// A character of a text: a Unicode scalar value, or a byte of malformed input, as the GNU Emacs Lisp Reference
/// Manual has them ("Text Representations").
#[derive(Clone, Copy, Debug, PartialEq, Eq)]
pub enum Ch {
    Scalar(char),
    /// A byte from 0x80 to 0xFF.
    Raw(u8),
}

const RAW_CODES: u32 = 0x3F_FF00;

impl Ch {
    /// The raw byte, or `None` for a byte below 0x80, which is a character of its own.
    pub fn raw(byte: u8) -> Option<Ch>
        ensures { option_map ch_of result ≡ (if nat_le 0x80 byte then Some (Raw byte) else None) }
    {
        if byte < 0x80 {
            None
        } else {
            Some(Ch::Raw(byte))
        }
    }

    /// The scalar value, or for a raw byte 0x3FFF00 plus the byte.
    pub fn code(self) -> u32
        ensures { result ≡ code (ch_of self) }
    {
        match self {
            Ch::Scalar(c) => u32::from(c),
            Ch::Raw(byte) => RAW_CODES + u32::from(byte),
        }
    }

    /// The character of a code, or `None` where no character has it: a code from 0xD800 to 0xDFFF, from 0x110000 to
    /// 0x3FFF7F, or above 0x3FFFFF.
    pub fn from_code(code: u32) -> Option<Ch>
        ensures exact { option_map ch_of result ≡ from_code code }
    {
        if code >= RAW_CODES + 0x80 && code <= RAW_CODES + 0xFF {
            return Some(Ch::Raw((code - RAW_CODES) as u8));
        }
        char::from_u32(code).map(Ch::Scalar)
    }

    /// Writes the character's UTF-8, or the one raw byte, to the front of `out`, and says how many bytes these are. The
    /// bytes of `out` behind them stay.
    pub fn encode(self, out: &mut [u8; 4]) -> usize
        ensures bytes { take result out.new ≡ encoded (ch_of self) }
        ensures within { result ≤ 4 }
        ensures behind { drop result out.new ≡ drop result out.old }
    {
        match self {
            Ch::Scalar(c) => {
                let mut buffer = [0u8; 4];
                let text = c.encode_utf8(&mut buffer).as_bytes();
                let count = text.len();
                out[..count].copy_from_slice(text);
                count
            }
            Ch::Raw(byte) => {
                out[0] = byte;
                1
            }
        }
    }
}
