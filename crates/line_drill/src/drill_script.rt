//! The script of the drill, made as forms.
ghost use Rattle.std.specs.Prelude.{◌≡◌, ℕ, ◌+◌, [], ◌∷◌, ◌++◌, length, map, codes, replicate};
ghost use Rattle.std.specs.Prelude.{slice_get, Some, option_map, IfOk, OnOk};
ghost use Rattle.editor_model.specs.Values.{Do as do_form, Setq as setq_form, StartProcess};
ghost use Rattle.plain_machine.specs.Drill as drill;
ghost use Rattle.plain_machine.specs.Drill.{drill_symbols, drill_handlers, drill_reads, drill_script};
ghost use Rattle.ek_types.specs.Listing.{items_of};
ghost use Rattle.ek_types.specs.Property.{number_of};
ghost use Rattle.ek_call.specs.Primitives.{prim_of};
ghost use Rattle.ek_call.specs.Meaning.{arg_of, call_of, joined, forms_of, handler_of, script_of};
ghost use Rattle.line_drill.specs.DrillForms.{word_of, wait_form};

use ek_call::{Arg, Args, Call, Form, Forms, HandlerDef, HandlerDefs, Primitive, Script, Value};
use ek_types::{Chars, ListOf, Mem, Piece, Sym, SymList, Symbols};
use std::alloc::Global;

/// Its names, numbered behind those that every script has.
const NAMES: [&str; 9] = ["f", "p", "s", "b", "m", "e", "n", "out", "g"];

// Their numbers.
const F: Sym = Sym(17);

const P: Sym = Sym(18);

const S: Sym = Sym(19);

const B: Sym = Sym(20);

const M: Sym = Sym(21);

const E: Sym = Sym(22);

const N: Sym = Sym(23);

const OUT: Sym = Sym(24);

const G: Sym = Sym(25);

/// An argument of its calls but strings.
#[derive(Clone, Copy)]
pub(crate) enum Word {
    /// What a parameter or a register holds.
    Name(Sym),
    /// The symbol itself.
    Quoted(Sym),
}

fn symbols(alloc: Global) -> Mem<Symbols>
    ensures { IfOk result (λ names. names ≡ drill_symbols) }
{
    let mut names = Symbols::new(alloc)?;
    names.intern_all(&NAMES)?;
    Ok(names)
}

fn argument(word: Word) -> Arg
    ensures { arg_of result ≡ word_of word }
{
    match word {
        Word::Name(name) => Arg::Name(name),
        Word::Quoted(name) => Arg::Const(Value::Sym(name)),
    }
}

fn call(alloc: Global, prim: Primitive, words: &[Word]) -> Mem<Call>
    ensures { IfOk result (λ c. call_of c ≡ drill.call (prim_of prim) (map word_of words.now)) }
{
    let mut args = ListOf::with_room(alloc, words.len())?;
    for word in words {
        args.push(argument(*word))?;
    }
    Ok(Call { prim, args })
}

/// Puts a call behind other forms.
fn then_do(forms: &mut Forms, prim: Primitive, words: &[Word]) -> Mem<()>
    ensures { OnOk result (forms_of forms.new ≡
        forms_of forms.old ++ do_form (drill.call (prim_of prim) (map word_of words.now)) ∷ []) }
{
    let call = call(forms.allocator(), prim, words)?;
    forms.push(Form::Do(call))
}

/// Puts a call whose answer is stored behind other forms.
fn then_set(forms: &mut Forms, name: Sym, prim: Primitive, words: &[Word]) -> Mem<()>
    ensures { OnOk result (forms_of forms.new ≡
        forms_of forms.old ++ setq_form name.0 (drill.call (prim_of prim) (map word_of words.now)) ∷ []) }
{
    let call = call(forms.allocator(), prim, words)?;
    forms.push(Form::Setq(name, call))
}

fn params(alloc: Global) -> Mem<SymList>
    ensures { IfOk result (λ names. map number_of (items_of names) ≡ drill.p ∷ drill.s ∷ []) }
{
    let mut names = ListOf::with_room(alloc, 2)?;
    names.push(P)?;
    names.push(S)?;
    Ok(names)
}

/// Fills the body of the filter: the text goes in at the process's mark, has a property, and the mark goes behind it.
fn fill_filter(body: &mut Forms) -> Mem<()>
    requires { forms_of body.old ≡ [] }
    ensures { OnOk result (Some (joined (forms_of body.new)) ≡
        option_map (λ h. h.body) (slice_get drill_handlers 0)) }
{
    then_set(body, B, Primitive::ProcessBuffer, &[Word::Name(P)])?;
    then_do(body, Primitive::SetBuffer, &[Word::Name(B)])?;
    then_set(body, M, Primitive::ProcessMark, &[Word::Name(P)])?;
    then_do(body, Primitive::GotoChar, &[Word::Name(M)])?;
    then_do(body, Primitive::Insert, &[Word::Name(S)])?;
    then_set(body, E, Primitive::Point, &[])?;
    let property = [
        Word::Name(M),
        Word::Name(E),
        Word::Quoted(N),
        Word::Quoted(OUT),
    ];
    then_do(body, Primitive::PutTextProperty, &property)?;
    then_do(body, Primitive::SetMarker, &[Word::Name(M), Word::Name(E)])?;
    then_do(body, Primitive::UndoBoundary, &[])
}

/// What the filter does.
fn filter_body(alloc: Global) -> Mem<Forms>
    ensures { IfOk result (λ body. Some (joined (forms_of body)) ≡
        option_map (λ h. h.body) (slice_get drill_handlers 0)) }
{
    let mut body = ListOf::with_room(alloc, 9)?;
    fill_filter(&mut body)?;
    Ok(body)
}

/// The filter, and a sentinel that does nothing.
fn handlers(alloc: Global) -> Mem<HandlerDefs>
    ensures { IfOk result (λ handlers. map handler_of (items_of handlers) ≡ drill_handlers) }
{
    let filter = HandlerDef {
        name: F,
        params: params(alloc)?,
        body: filter_body(alloc)?,
    };
    let sentinel = HandlerDef {
        name: G,
        params: params(alloc)?,
        body: ListOf::new(alloc),
    };
    let mut handlers = ListOf::with_room(alloc, 2)?;
    handlers.push(filter)?;
    handlers.push(sentinel)?;
    Ok(handlers)
}

/// A string without properties, each byte a character.
fn string(alloc: Global, bytes: &[u8]) -> Mem<Arg>
    ensures { IfOk result (λ arg. arg_of arg ≡ drill.string bytes.now) }
{
    let mut text = Chars::new(alloc);
    text.extend_bytes(bytes)?;
    Ok(Arg::Const(Value::Str(Piece::plain(alloc, text)?)))
}

/// Puts such a string behind other arguments.
fn then_string(args: &mut Args, bytes: &[u8]) -> Mem<()>
    ensures { OnOk result (map arg_of (items_of args.new) ≡
        map arg_of (items_of args.old) ++ drill.string bytes.now ∷ []) }
{
    let word = string(args.allocator(), bytes)?;
    args.push(word)
}

/// The start of the child.
fn start(alloc: Global) -> Mem<Call>
    ensures { IfOk result (λ c. call_of c ≡ drill.call StartProcess
        (drill.string (codes "drill") ∷ drill.string (codes "out") ∷ drill.string (codes "drill") ∷ [])) }
{
    let mut args = ListOf::with_room(alloc, 3)?;
    then_string(&mut args, b"drill")?;
    then_string(&mut args, b"out")?;
    then_string(&mut args, b"drill")?;
    Ok(Call {
        prim: Primitive::StartProcess,
        args,
    })
}

/// Puts so many waits behind other forms.
fn then_wait(forms: &mut Forms, waits: usize) -> Mem<()>
    ensures { OnOk result (forms_of forms.new ≡ forms_of forms.old ++ replicate waits wait_form) }
{
    forms.reserve(waits)?;
    'waiting: for _ in 0..waits {
        then_do(forms, Primitive::AcceptProcessOutput, &[Word::Name(P)])?;
    }
    Ok(())
}

/// Fills the forms of a script that waits so often: the child is started and gets its handlers before.
fn fill_forms(forms: &mut Forms, waits: usize) -> Mem<()>
    requires { forms_of forms.old ≡ [] }
    ensures { OnOk result ((count : ℕ) → waits ≡ length (drill_reads count) + 1 →
        joined (forms_of forms.new) ≡ (drill_script count).forms) }
{
    let start = start(forms.allocator())?;
    forms.push(Form::Setq(P, start))?;
    then_do(
        forms,
        Primitive::SetProcessFilter,
        &[Word::Name(P), Word::Quoted(F)],
    )?;
    then_do(
        forms,
        Primitive::SetProcessSentinel,
        &[Word::Name(P), Word::Quoted(G)],
    )?;
    then_wait(forms, waits)
}

fn forms(alloc: Global, waits: usize) -> Mem<Forms>
    ensures { IfOk result (λ forms. (count : ℕ) → waits ≡ length (drill_reads count) + 1 →
        joined (forms_of forms) ≡ (drill_script count).forms) }
{
    let mut forms = ListOf::new(alloc);
    fill_forms(&mut forms, waits)?;
    Ok(forms)
}

/// The script that waits so often: once for each read of its child, and once more.
pub(crate) fn script(alloc: Global, waits: usize) -> Mem<Script>
    ensures { IfOk result (λ script. (count : ℕ) → waits ≡ length (drill_reads count) + 1 →
        script_of script ≡ drill_script count) }
{
    let symbols = symbols(alloc)?;
    let handlers = handlers(alloc)?;
    let forms = forms(alloc, waits)?;
    Ok(Script {
        symbols,
        handlers,
        forms,
    })
}
