//! Forms, and the ends of blocks.
ghost use Rattle.std.specs.Prelude.{◌≡◌, ◌<◌, ◌∷◌, ℕ, List, Option, drop, map, OnOk};
ghost use Rattle.plain_machine.specs.Items.{Item as MachineItem, Body, DoForm, Leave, Top};
ghost use Rattle.plain_machine.specs.State.{Program as Plain, State};
ghost use Rattle.ek_types.specs.Listing.{items_of};
ghost use Rattle.ek_call.specs.Meaning.{arg_of, call_of, form_of, joined};
ghost use Rattle.editor_model.specs.Values.{In, WhenEq};
ghost use Rattle.kernel_steps.specs.Blocks.{block_of, kept_as};
ghost use Rattle.kernel_steps.specs.Work.{call_form, target_of as form_target};
ghost use Rattle.trace_check.specs.Meaning.{list_of, places_of, target_of};
ghost use Rattle.trace_check.specs.Steps.{Quietly};

use crate::arguments::{are_equal, values};
use crate::item::{Item, Target};
use crate::work::Work;
use ek_call::{Arg, Call, Fault, Form, Forms};
use ek_types::{Copied, Mem};
use kernel_steps::{Block, Kept, Kernel};

/// The first form that is left of a body, and the others behind it. Without forms the body is gone.
pub(crate) fn do_body(work: &mut Work, forms: Forms, at: usize) -> Mem<()>
    requires { 0 < places_of work.old }
    ensures { (program : Plain) (s : State) → OnOk result (Quietly program s s
        (Body (joined (drop at (map form_of (items_of forms)))) ∷ (list_of work.old)) (list_of work.new)) }
{
    if at >= forms.len() {
        return Ok(());
    }
    let form = forms.at(at).copy()?;
    work.put_back(Item::Body { forms, at: at + 1 });
    work.put(Item::DoForm(form))
}

/// The same of the top level. Without forms the run comes to its end.
pub(crate) fn do_top(work: &mut Work, forms: Forms, at: usize) -> Mem<()>
    requires { 0 < places_of work.old }
    ensures { (program : Plain) (s : State) → OnOk result (Quietly program s s
        (Top (joined (drop at (map form_of (items_of forms)))) ∷ (list_of work.old)) (list_of work.new)) }
{
    if at >= forms.len() {
        work.clear();
        return work.put(Item::Finish { process: 0 });
    }
    let form = forms.at(at).copy()?;
    work.put_back(Item::Top { forms, at: at + 1 });
    work.put(Item::DoForm(form))
}

/// One form.
pub(crate) fn do_form<M: Kernel>(kernel: &mut M, work: &mut Work, form: Form) -> Mem<()>
    requires { 0 < places_of work.old }
    ensures { (program : Plain) → OnOk result (Quietly program (M.state kernel.old) (M.state kernel.new)
        (DoForm (form_of form) ∷ (list_of work.old)) (list_of work.new)) }
{
    match form {
        Form::Do(call) => do_call(kernel, work, call, Target::Nowhere),
        Form::Setq(name, call) => do_call(kernel, work, call, Target::Name(name)),
        Form::Excursion(forms) => do_block(kernel, work, Block::Excursion, forms),
        Form::Restriction(forms) => do_block(kernel, work, Block::Restriction, forms),
        Form::KeepBuffer(forms) => do_block(kernel, work, Block::CurrentBuffer, forms),
        Form::NoHooks(forms) => do_block(kernel, work, Block::NoHooks, forms),
        Form::ReadOnlyOff(forms) => do_block(kernel, work, Block::ReadOnlyOff, forms),
        Form::WhenEq(pair, forms) => do_when(kernel, work, &pair.0, &pair.1, forms),
    }
}

/// A call is made where its arguments have values.
fn do_call<M: Kernel>(kernel: &mut M, work: &mut Work, call: Call, target: Target) -> Mem<()>
    ensures { (program : Plain) (name : Option ℕ) → form_target name ≡ target_of target → OnOk result
        (Quietly program (M.state kernel.old) (M.state kernel.new)
        (DoForm (call_form name (call_of call)) ∷ (list_of work.old)) (list_of work.new)) }
{
    match values(kernel, &call.args)? {
        None => work.put(Item::Refuse(Fault::VoidVariable)),
        Some(args) => work.put(Item::MakeCall {
            prim: call.prim,
            args,
            target,
        }),
    }
}

/// A block keeps what it must, and restores it behind its forms.
fn do_block<M: Kernel>(kernel: &mut M, work: &mut Work, block: Block, forms: Forms) -> Mem<()>
    requires { 0 < places_of work.old }
    ensures { (program : Plain) → OnOk result (Quietly program (M.state kernel.old) (M.state kernel.new)
        (DoForm (In (block_of block) (joined (map form_of (items_of forms)))) ∷ (list_of work.old))
        (list_of work.new)) }
{
    let kept = kernel.open(block)?;
    work.put_back(Item::Leave(kept));
    work.put(Item::Body { forms, at: 0 })
}

/// Forms are done where two arguments are equal.
fn do_when<M: Kernel>(kernel: &M, work: &mut Work, a: &Arg, b: &Arg, forms: Forms) -> Mem<()>
    ensures { (program : Plain) → OnOk result (Quietly program (M.state kernel.now) (M.state kernel.now)
        (DoForm (WhenEq (arg_of a.now) (arg_of b.now) (joined (map form_of (items_of forms)))) ∷
        (list_of work.old)) (list_of work.new)) }
{
    match are_equal(kernel, a, b) {
        None => work.put(Item::Refuse(Fault::VoidVariable)),
        Some(true) => work.put(Item::Body { forms, at: 0 }),
        Some(false) => Ok(()),
    }
}

/// A block ends, and what it kept is restored.
pub(crate) fn leave<M: Kernel>(kernel: &mut M, kept: Kept)
    ensures { (program : Plain) (rest : List MachineItem) → Quietly program (M.state kernel.old)
        (M.state kernel.new) (Leave (kept_as kept) ∷ rest) rest }
{
    kernel.restore(kept);
}
