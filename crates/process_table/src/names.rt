//! How the name of a process is numbered.
ghost use Rattle.std.specs.Prelude.{◌≡◌, IfOk};
ghost use Rattle.editor_model.specs.Editor.{numbered_name};

use ek_types::{Chars, Mem};
use itoa::Buffer;

/// The name with a number in angle brackets behind it.
pub(crate) fn numbered(name: &Chars, n: u32) -> Mem<Chars>
    ensures { IfOk result (λ c. c.items ≡ numbered_name name.now.items n) }
{
    let mut digits = Buffer::new();
    let mut longer = name.copy()?;
    longer.extend_bytes(b"<")?;
    longer.extend_bytes(digits.format(n).as_bytes())?;
    longer.extend_bytes(b">")?;
    Ok(longer)
}
