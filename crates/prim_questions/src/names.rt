//! Names for buffers that no other buffer has.
ghost use Rattle.std.specs.Prelude.{◌≡◌, IfOk, is_some, unwrap_or, slice_get};
ghost use Rattle.std.specs.Prelude.{None, length};
ghost use Rattle.editor_model.specs.Editor.{find_from, free_name, first_numbered, numbered_name};
ghost use Rattle.buffer_table.specs.Kept.{editor_of};
ghost use Rattle.prim_questions.specs.Names.{is_named, rivals};

use buffer_table::Editor;
use ek_types::{Chars, Mem, NoMemory};
use itoa::Buffer;

/// Whether a buffer lives and has a name; the current one may be left out.
#[tactic(auto, using(crate::proofs::NameLemmas::no_rival, crate::proofs::NameLemmas::rival))]
fn is_rival(editor: &Editor, id: u32, but_current: bool, name: &Chars) -> bool
    ensures { result ≡ is_named (unwrap_or (slice_get (rivals but_current (editor_of editor.now))
        id) None) name.now.items }
{
    if but_current && id == editor.current() {
        return false;
    }
    match editor.name(id) {
        Some(own) => own.same(name),
        None => false,
    }
}

/// Whether a live buffer has a name; the current one may be left out.
fn is_taken(editor: &Editor, but_current: bool, name: &Chars) -> bool
    ensures { result ≡ is_some (find_from 0 (rivals but_current (editor_of editor.now))
        name.now.items) }
{
    for id in 0..editor.count() {
        if is_rival(editor, id, but_current, name) {
            return true;
        }
    }
    false
}

/// The name with a number in angle brackets behind it.
fn numbered(name: &Chars, n: u64) -> Mem<Chars>
    ensures { IfOk result (λ c. c.items ≡ numbered_name name.now.items n) }
{
    let mut digits = Buffer::new();
    let mut longer = name.copy()?;
    longer.extend_bytes(b"<")?;
    longer.extend_bytes(digits.format(n).as_bytes())?;
    longer.extend_bytes(b">")?;
    Ok(longer)
}

/// The first of the name with `<2>`, `<3>` and so on behind it that no live buffer has. Where all of one more than
/// there are buffers were taken, which can't be, memory counts as wanting.
fn first_numbered(editor: &Editor, but_current: bool, name: &Chars) -> Mem<Chars>
    ensures name { IfOk result (λ n. n.items ≡ first_numbered
        (length (editor_of editor.now).buffers) 2 (rivals but_current (editor_of editor.now))
        name.now.items) }
    ensures free { IfOk result (λ n. find_from 0 (rivals but_current (editor_of editor.now))
        n.items ≡ None) }
{
    let count = u64::from(editor.count());
    for n in 2..count + 3 {
        let longer = numbered(name, n)?;
        if !is_taken(editor, but_current, &longer) {
            return Ok(longer);
        }
    }
    Err(NoMemory)
}

/// The name itself, or the first with `<2>`, `<3>` and so on behind it that no live buffer has ("Buffer Names" in the
/// GNU Emacs Lisp Reference Manual); the current buffer may be left out.
#[tactic(auto, using(crate::proofs::NameLemmas::taken, crate::proofs::NameLemmas::not_taken, crate::proofs::NameLemmas::is_free, crate::proofs::NameLemmas::length_rivals))]
pub(crate) fn free_name(editor: &Editor, but_current: bool, name: &Chars) -> Mem<Chars>
    ensures name { IfOk result (λ n. n.items ≡ free_name (rivals but_current (editor_of editor.now))
        name.now.items) }
    ensures free { IfOk result (λ n. find_from 0 (rivals but_current (editor_of editor.now))
        n.items ≡ None) }
{
    if is_taken(editor, but_current, name) {
        first_numbered(editor, but_current, name)
    } else {
        name.copy()
    }
}
