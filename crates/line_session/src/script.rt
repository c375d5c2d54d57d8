//! The script of a session, made as forms.
ghost use Rattle.std.specs.Prelude.{◌≡◌, ◌++◌, map, replicate, IfOk, OnOk};
ghost use Rattle.editor_model.specs.Values.{Const, StartProcess};
ghost use Rattle.plain_machine.specs.Drill.{call as call_with};
ghost use Rattle.ek_call.specs.Primitives.{prim_of};
ghost use Rattle.ek_call.specs.Meaning.{call_of, form_of, forms_of, script_of};
ghost use Rattle.line_session.specs.Script as definition;
ghost use Rattle.line_session.specs.Script.{session_symbols, waiting_forms, wait_form, session_script};
ghost use Rattle.line_session.specs.Forms.{handler_form};
ghost use Rattle.line_session.specs.Replies.{values_of};

use ek_call::{Arg, Call, Form, Forms, Primitive, Script, Value, Values};
use ek_types::{Copied, ListOf, Mem, Sym, Symbols};
use std::alloc::Global;

// Its names, numbered behind those that every script has.
const P: Sym = Sym(17);

const FILTER: Sym = Sym(18);

const SENTINEL: Sym = Sym(19);

/// How often the script waits.
const WAITS: usize = 65_536;

fn symbols(alloc: Global) -> Mem<Symbols>
    ensures { IfOk result (λ names. names ≡ session_symbols) }
{
    let mut names = Symbols::new(alloc)?;
    names.intern("p")?;
    names.intern("session-filter")?;
    names.intern("session-sentinel")?;
    Ok(names)
}

/// The start of the child.
fn start(command: &Values) -> Mem<Call>
    ensures { IfOk result (λ c. call_of c ≡
        call_with StartProcess (map Const (values_of command.now))) }
{
    let mut args = ListOf::new(command.allocator());
    for i in 0..command.len() {
        args.push(Arg::Const(command.at(i).copy()?))?;
    }
    Ok(Call {
        prim: Primitive::StartProcess,
        args,
    })
}

/// The call that gives the child's process a handler.
fn handler(alloc: Global, prim: Primitive, name: Sym) -> Mem<Form>
    ensures { IfOk result (λ form. form_of form ≡ handler_form (prim_of prim) name.0) }
{
    let mut args = ListOf::new(alloc);
    args.push(Arg::Name(P))?;
    args.push(Arg::Const(Value::Sym(name)))?;
    Ok(Form::Do(Call { prim, args }))
}

fn wait(alloc: Global) -> Form
    ensures { form_of result ≡ wait_form }
{
    Form::Do(Call {
        prim: Primitive::AcceptProcessOutput,
        args: ListOf::new(alloc),
    })
}

/// Puts so many waits behind other forms.
fn then_wait(forms: &mut Forms, waits: usize) -> Mem<()>
    ensures { OnOk result (forms_of forms.new ≡ forms_of forms.old ++ replicate waits wait_form) }
{
    forms.reserve(waits)?;
    'waiting: for _ in 0..waits {
        let form = wait(forms.allocator());
        forms.push(form)?;
    }
    Ok(())
}

fn forms(command: &Values, waits: usize) -> Mem<Forms>
    ensures { IfOk result (λ forms. forms_of forms ≡ waiting_forms waits (values_of command.now)) }
{
    let alloc = command.allocator();
    let mut forms = ListOf::new(alloc);
    forms.push(Form::Setq(P, start(command)?))?;
    forms.push(handler(alloc, Primitive::SetProcessFilter, FILTER)?)?;
    forms.push(handler(alloc, Primitive::SetProcessSentinel, SENTINEL)?)?;
    then_wait(&mut forms, waits)?;
    Ok(forms)
}

/// The script that starts this command and waits for it.
pub(crate) fn script(command: &Values) -> Mem<Script>
    ensures { IfOk result (λ script. script_of script ≡ session_script (values_of command.now)) }
{
    let alloc = command.allocator();
    let symbols = symbols(alloc)?;
    let forms = forms(command, WAITS)?;
    Ok(Script {
        symbols,
        handlers: ListOf::new(alloc),
        forms,
    })
}
