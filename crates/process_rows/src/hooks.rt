//! Worked cases of hook lists.
use crate::checking::{holds, is};
use change_hooks::Hooks;
use ek_types::Sym;
use std::process::Abort;

/// Adds a function to a list, and tells whether it fits.
fn add(rt: &impl Abort, hooks: &mut Hooks, buffer: u32, before: bool, name: u32) -> bool {
    assert!(rt; buffer < 256);
    hooks.add(buffer, before, Sym(name)).expect(rt, "memory")
}

/// Whether the function of the same number fits in the list of buffer 0 behind changes.
fn fits(rt: &impl Abort, hooks: &mut Hooks, name: u32, expected: bool) {
    is(rt, add(rt, hooks, 0, false, name), expected);
}

/// Takes a function out of the list behind changes.
fn remove(rt: &impl Abort, hooks: &mut Hooks, buffer: u32, name: u32) {
    assert!(rt; buffer < 256);
    hooks.remove(buffer, false, Sym(name));
}

fn clear(rt: &impl Abort, hooks: &mut Hooks, buffer: u32) {
    assert!(rt; buffer < 256);
    hooks.clear(buffer, true);
}

/// A list of a buffer is this.
fn lists(rt: &impl Abort, hooks: &Hooks, buffer: u32, before: bool, expected: &[Sym]) {
    is(rt, hooks.list(buffer, before).as_slice(), expected);
}

#[test]
fn the_function_that_was_added_last_comes_first(rt: HostRuntime) {
    let mut hooks = Hooks::new(rt.alloc()).expect(&rt, "memory");
    for name in [20, 21, 20] {
        is(&rt, add(&rt, &mut hooks, 3, true, name), true);
    }
    lists(&rt, &hooks, 3, true, &[Sym(21), Sym(20)]);
    lists(&rt, &hooks, 3, false, &[]);
    lists(&rt, &hooks, 4, true, &[]);
}

/// The names without 5, the latest first.
const WITHOUT_5: [Sym; 8] = [
    Sym(8),
    Sym(7),
    Sym(6),
    Sym(4),
    Sym(3),
    Sym(2),
    Sym(1),
    Sym(0),
];

fn are_named(rt: &impl Abort, hooks: &Hooks, expected: &[Sym]) {
    let names = hooks.names(0, false).expect(rt, "memory");
    is(rt, names.as_slice(), expected);
}

#[test]
fn a_ninth_function_is_refused_until_one_is_taken_out(rt: HostRuntime) {
    let mut hooks = Hooks::new(rt.alloc()).expect(&rt, "memory");
    for name in 0..8 {
        fits(&rt, &mut hooks, name, true);
    }
    fits(&rt, &mut hooks, 8, false);
    fits(&rt, &mut hooks, 0, true);
    is(&rt, add(&rt, &mut hooks, 0, true, 8), true);
    remove(&rt, &mut hooks, 0, 5);
    fits(&rt, &mut hooks, 8, true);
    are_named(&rt, &hooks, &WITHOUT_5);
}

#[test]
fn lists_of_all_buffers_are_emptied_with_no_memory(rt: HostRuntime) {
    let mut hooks = Hooks::new(rt.alloc()).expect(&rt, "memory");
    is(&rt, add(&rt, &mut hooks, 255, true, 20), true);
    for buffer in 0..256 {
        remove(&rt, &mut hooks, buffer, 20);
        clear(&rt, &mut hooks, buffer);
    }
    lists(&rt, &hooks, 255, true, &[]);
}

/// Inhibition is off before, and then on.
fn is_inhibited_once(rt: &impl Abort, hooks: &mut Hooks) {
    holds(rt, !hooks.inhibit(true));
    holds(rt, hooks.inhibited());
    holds(rt, hooks.inhibit(false));
}

#[test]
fn inhibition_answers_what_was_set_before(rt: HostRuntime) {
    let mut hooks = Hooks::new(rt.alloc()).expect(&rt, "memory");
    is_inhibited_once(&rt, &mut hooks);
}
