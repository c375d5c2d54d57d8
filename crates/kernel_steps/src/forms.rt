//! Forms, one after another.
ghost use Rattle.std.specs.Prelude.{map};
ghost use Rattle.editor_model.specs.Values.{In, WhenEq};
ghost use Rattle.plain_machine.specs.Items.{Body, DoForm};
ghost use Rattle.ek_types.specs.Listing.{items_of};
ghost use Rattle.ek_call.specs.Meaning.{arg_of, call_of, form_of, joined, view};
ghost use Rattle.kernel_steps.specs.Blocks.{block_of};
ghost use Rattle.kernel_steps.specs.Work.{Does, AnswersForm, RunsTop, lifted};
ghost use Rattle.kernel_steps.specs.Worlds.{Between, IsReady};

use crate::arguments::{are_equal, values};
use crate::calls::call;
use crate::handlers::has_faulted;
use crate::kernel::{Block, Kernel};
use crate::program::Program;
use crate::reply::refuse;
use crate::stop::{Halt, Stop};
use ek_call::{Arg, Call, Fault, Form, Forms, Value};
use ek_types::Sink;
use host_link::Host;

/// Runs the forms of the top level. A fault ends its form alone.
pub fn run_top<M: Kernel, P: Program, H: Host, K: Sink>(
    kernel: &mut M,
    program: &P,
    host: &mut H,
    sink: &mut K,
    forms: &Forms,
) -> Result<(), Stop>
    requires { IsReady (M.state kernel.old) (H.state host.old).kills }
    ensures { Between M.state H.state H.made
        kernel.old kernel.new host.old host.new (K.state sink.old) (K.state sink.new)
        (RunsTop (lifted result) (P.meant program.now) (joined (map form_of (items_of forms.now)))) }
{
    for i in 0..forms.len() {
        has_faulted(run_form(kernel, program, host, sink, forms.at(i)))?;
    }
    Ok(())
}

/// Runs forms one after another, up to the first that ends by a fault.
#[cycle(run)]
pub fn run_forms<M: Kernel, P: Program, H: Host, K: Sink>(
    kernel: &mut M,
    program: &P,
    host: &mut H,
    sink: &mut K,
    forms: &Forms,
) -> Result<(), Halt>
    requires { IsReady (M.state kernel.old) (H.state host.old).kills }
    ensures { Between M.state H.state H.made
        kernel.old kernel.new host.old host.new (K.state sink.old) (K.state sink.new)
        (Does result (P.meant program.now) (Body (joined (map form_of (items_of forms.now))))) }
{
    for i in 0..forms.len() {
        run_form(kernel, program, host, sink, forms.at(i))?;
    }
    Ok(())
}

/// Runs one form.
#[cycle(run)]
fn run_form<M: Kernel, P: Program, H: Host, K: Sink>(
    kernel: &mut M,
    program: &P,
    host: &mut H,
    sink: &mut K,
    form: &Form,
) -> Result<(), Halt>
    requires { IsReady (M.state kernel.old) (H.state host.old).kills }
    ensures { Between M.state H.state H.made
        kernel.old kernel.new host.old host.new (K.state sink.old) (K.state sink.new)
        (Does result (P.meant program.now) (DoForm (form_of form.now))) }
{
    match form {
        Form::Do(call) => {
            run_call(kernel, program, host, sink, call)?;
            Ok(())
        }
        Form::Setq(name, call) => {
            let value = run_call(kernel, program, host, sink, call)?;
            kernel.assign(*name, value)?;
            Ok(())
        }
        Form::Excursion(forms) => {
            run_block(kernel, program, host, sink, Block::Excursion, forms)
        }
        Form::Restriction(forms) => {
            run_block(kernel, program, host, sink, Block::Restriction, forms)
        }
        Form::KeepBuffer(forms) => {
            run_block(kernel, program, host, sink, Block::CurrentBuffer, forms)
        }
        Form::NoHooks(forms) => run_block(kernel, program, host, sink, Block::NoHooks, forms),
        Form::ReadOnlyOff(forms) => {
            run_block(kernel, program, host, sink, Block::ReadOnlyOff, forms)
        }
        Form::WhenEq(pair, forms) => {
            run_when(kernel, program, host, sink, &pair.0, &pair.1, forms)
        }
    }
}

/// Runs the forms of a block, and restores behind them what the block kept, also where they end by
/// a fault.
#[cycle(run)]
fn run_block<M: Kernel, P: Program, H: Host, K: Sink>(
    kernel: &mut M,
    program: &P,
    host: &mut H,
    sink: &mut K,
    block: Block,
    forms: &Forms,
) -> Result<(), Halt>
    requires { IsReady (M.state kernel.old) (H.state host.old).kills }
    ensures { Between M.state H.state H.made
        kernel.old kernel.new host.old host.new (K.state sink.old) (K.state sink.new)
        (Does result (P.meant program.now) (DoForm (In (block_of block) (joined (map form_of
        (items_of forms.now)))))) }
{
    let kept = kernel.open(block)?;
    let ran = run_forms(kernel, program, host, sink, forms);
    kernel.restore(kept);
    ran
}

/// Runs forms where two arguments are equal.
#[cycle(run)]
fn run_when<M: Kernel, P: Program, H: Host, K: Sink>(
    kernel: &mut M,
    program: &P,
    host: &mut H,
    sink: &mut K,
    a: &Arg,
    b: &Arg,
    forms: &Forms,
) -> Result<(), Halt>
    requires { IsReady (M.state kernel.old) (H.state host.old).kills }
    ensures { Between M.state H.state H.made
        kernel.old kernel.new host.old host.new (K.state sink.old) (K.state sink.new)
        (Does result (P.meant program.now) (DoForm (WhenEq (arg_of a.now) (arg_of b.now) (joined
        (map form_of (items_of forms.now)))))) }
{
    match are_equal(kernel, a, b) {
        None => Err(refuse(kernel, program, sink, Fault::VoidVariable)),
        Some(true) => run_forms(kernel, program, host, sink, forms),
        Some(false) => Ok(()),
    }
}

/// Evaluates the arguments of a call, and makes it.
#[cycle(run)]
#[inline(always)]
fn run_call<M: Kernel, P: Program, H: Host, K: Sink>(
    kernel: &mut M,
    program: &P,
    host: &mut H,
    sink: &mut K,
    form: &Call,
) -> Result<Value, Halt>
    requires { IsReady (M.state kernel.old) (H.state host.old).kills }
    ensures { Between M.state H.state H.made
        kernel.old kernel.new host.old host.new (K.state sink.old) (K.state sink.new)
        (AnswersForm result view (P.meant program.now) (call_of form.now)) }
{
    match values(kernel, &form.args)? {
        None => Err(refuse(kernel, program, sink, Fault::VoidVariable)),
        Some(args) => {
            let answer = call(kernel, program, host, sink, form.prim, &args);
            kernel.give_room(args);
            answer
        }
    }
}
