//! The two natives of a line session reply by reply, and the script.
use crate::checking::{holds, is};
use ek_call::{Arg, Call, Fault, Form, Primitive, Replies, Reply, Script, Value, Values};
use ek_types::{Ch, Chars, ListOf, Piece, Sym, Symbols};
use handler_code::{Natives, Next};
use line_session::LineSession;
use std::alloc::Global;
use std::process::Abort;

/// A session of `make -k`.
fn session(rt: &impl Abort, alloc: Global, limit: u32) -> LineSession {
    let mut args = Vec::new(alloc);
    let one = String::from_str(alloc, "-k").expect(rt, "memory");
    args.push(one).expect(rt, "memory");
    LineSession::new(alloc, limit, "make", &args).expect(rt, "memory")
}

fn text(rt: &impl Abort, alloc: Global, bytes: &[u8]) -> Piece {
    let mut chars = Chars::new(alloc);
    chars.extend_bytes(bytes).expect(rt, "memory");
    Piece::plain(alloc, chars).expect(rt, "memory")
}

/// Process 4 and what is told of it.
fn arguments(rt: &impl Abort, alloc: Global, told: &[u8]) -> Values {
    let mut args = ListOf::new(alloc);
    args.push(Value::Process(4)).expect(rt, "memory");
    args.push(Value::Str(text(rt, alloc, told)))
        .expect(rt, "memory");
    args
}

/// One answer more.
fn answer(rt: &impl Abort, past: &mut Replies, value: Value) {
    past.push(Reply::Value(value)).expect(rt, "memory");
}

/// The answers up to the end of the buffer, which is buffer 1 and ends at 7, and the answer `last` about the
/// character there.
fn looked(rt: &impl Abort, alloc: Global, count: usize, last: i64) -> Replies {
    let mut past = ListOf::new(alloc);
    for call in 0..count {
        let value = match call {
            0 => Value::Buffer(1),
            2 => Value::Int(7),
            4 => Value::Int(last),
            _ => Value::T,
        };
        answer(rt, &mut past, value);
    }
    past
}

/// The answers of a restart: the filter 18, the sentinel 19, the new process 9.
fn started(rt: &impl Abort, past: &mut Replies, count: usize) {
    for call in 0..count {
        let value = match call {
            0 => Value::Sym(Sym(18)),
            1 => Value::Sym(Sym(19)),
            2 => Value::Process(9),
            _ => Value::T,
        };
        answer(rt, past, value);
    }
}

/// An argument as a number: an integer, the number of an object or a symbol, 100 and the length of a string, 0 for
/// any other value, and -1 where it was left out.
fn argument(args: &Values, i: usize) -> i64 {
    match args.as_slice().get(i) {
        Some(Value::Int(n)) => *n,
        Some(Value::Buffer(n)) => i64::from(*n),
        Some(Value::Process(n)) => i64::from(*n),
        Some(Value::Sym(name)) => i64::from(name.0),
        Some(Value::Str(text)) => 100 + text.len().min(100) as i64,
        Some(_) => 0,
        None => -1,
    }
}

/// A call with its first two arguments.
#[derive(Clone, Copy, Debug, PartialEq, Eq)]
struct Step {
    prim: Primitive,
    first: i64,
    second: i64,
}

fn asked(prim: Primitive, first: i64, second: i64) -> Option<Step> {
    Some(Step {
        prim,
        first,
        second,
    })
}

fn shown(next: &Next) -> Option<Step> {
    match next {
        Next::Call(call) => asked(call.prim, argument(&call.args, 0), argument(&call.args, 1)),
        Next::Done => None,
    }
}

/// What a native of a session with at most so many restarts does next, told these words.
fn next(
    rt: &impl Abort,
    alloc: Global,
    limit: u32,
    native: u32,
    told: &[u8],
    past: &Replies,
) -> Option<Step> {
    let args = arguments(rt, alloc, told);
    let next = session(rt, alloc, limit).next(native, &args, past);
    shown(&next.expect(rt, "memory"))
}

/// The filter does this next, told `ab`.
fn filters_behind(rt: &impl Abort, alloc: Global, past: &Replies, step: Option<Step>) {
    is(rt, next(rt, alloc, 5, 0, b"ab", past), step);
}

/// The sentinel of a session with at most 5 restarts does this next, told these words.
fn tells(rt: &impl Abort, alloc: Global, told: &[u8], past: &Replies, step: Option<Step>) {
    is(rt, next(rt, alloc, 5, 1, told, past), step);
}

/// The filter does this next, behind so many answers.
fn filters(rt: &impl Abort, alloc: Global, count: usize, step: Option<Step>) {
    filters_behind(rt, alloc, &looked(rt, alloc, count, 98), step);
}

#[test]
fn the_filter_puts_its_text_at_the_end_of_the_buffer(rt: HostRuntime) {
    let alloc = rt.alloc();
    filters(&rt, alloc, 0, asked(Primitive::ProcessBuffer, 4, -1));
    filters(&rt, alloc, 1, asked(Primitive::SetBuffer, 1, -1));
    filters(&rt, alloc, 2, asked(Primitive::PointMax, -1, -1));
    filters(&rt, alloc, 3, asked(Primitive::GotoChar, 7, -1));
    filters(&rt, alloc, 4, asked(Primitive::Insert, 102, -1));
    filters(&rt, alloc, 5, None);
    filters(&rt, alloc, 6, None);
}

/// So many answers up to the end of the buffer, where `code` stands, and one more.
fn looked_and(rt: &impl Abort, alloc: Global, count: usize, code: i64, last: Reply) -> Replies {
    let mut past = looked(rt, alloc, count, code);
    past.push(last).expect(rt, "memory");
    past
}

/// So many answers up to the end of the buffer, and a fault.
fn faulted(rt: &impl Abort, alloc: Global, count: usize, fault: Fault) -> Replies {
    looked_and(rt, alloc, count, 98, Reply::Fault(fault))
}

#[test]
fn a_refused_insertion_by_the_filter_switches_reading_off(rt: HostRuntime) {
    let alloc = rt.alloc();
    let mut past = faulted(&rt, alloc, 4, Fault::BufferFull);
    let off = asked(Primitive::SetProcessFilter, 4, 0);
    filters_behind(&rt, alloc, &past, off);
    answer(&rt, &mut past, Value::T);
    filters_behind(&rt, alloc, &past, None);
}

#[test]
fn a_refused_insertion_by_the_sentinel_switches_reading_off(rt: HostRuntime) {
    let alloc = rt.alloc();
    let mut past = faulted(&rt, alloc, 5, Fault::BufferFull);
    let off = asked(Primitive::SetProcessFilter, 4, 0);
    tells(&rt, alloc, b"killed\n", &past, off);
    past.push(Reply::Fault(Fault::BufferFull))
        .expect(&rt, "memory");
    tells(&rt, alloc, b"killed\n", &past, None);
}

#[test]
fn a_fault_on_the_way_to_the_end_ends_the_filter(rt: HostRuntime) {
    for count in 0..4 {
        let past = faulted(&rt, rt.alloc(), count, Fault::BufferKilled);
        filters_behind(&rt, rt.alloc(), &past, None);
    }
}

#[test]
fn a_fault_on_the_way_to_the_end_ends_the_sentinel(rt: HostRuntime) {
    for count in 0..5 {
        let past = faulted(&rt, rt.alloc(), count, Fault::BufferKilled);
        tells(&rt, rt.alloc(), b"killed\n", &past, None);
    }
}

#[test]
fn the_sentinel_closes_an_open_line(rt: HostRuntime) {
    let alloc = rt.alloc();
    let told = b"finished\n";
    let past = looked(&rt, alloc, 4, 98);
    tells(&rt, alloc, told, &past, asked(Primitive::CharAfter, 6, -1));
    let mut past = looked(&rt, alloc, 5, 98);
    tells(&rt, alloc, told, &past, asked(Primitive::Insert, 101, -1));
    answer(&rt, &mut past, Value::Nil);
    tells(&rt, alloc, told, &past, None);
}

#[test]
fn the_sentinel_leaves_a_closed_line(rt: HostRuntime) {
    let alloc = rt.alloc();
    let told = b"finished\n";
    let past = looked(&rt, alloc, 5, 10);
    tells(&rt, alloc, told, &past, None);
    let past = looked_and(&rt, alloc, 4, 10, Reply::Value(Value::Nil));
    tells(&rt, alloc, told, &past, None);
}

/// A sentinel does this next behind an end with code 3, where the last character has this code and so many answers of
/// the restart came.
fn restarts(rt: &impl Abort, alloc: Global, last: i64, count: usize, step: Option<Step>) {
    let mut past = looked(rt, alloc, 5, last);
    started(rt, &mut past, count);
    tells(rt, alloc, b"exited abnormally with code 3\n", &past, step);
}

#[test]
fn a_child_that_ended_otherwise_is_started_again(rt: HostRuntime) {
    let alloc = rt.alloc();
    let set = Primitive::SetProcessSentinel;
    restarts(&rt, alloc, 10, 0, asked(Primitive::ProcessFilter, 4, -1));
    restarts(&rt, alloc, 10, 1, asked(Primitive::ProcessSentinel, 4, -1));
    restarts(&rt, alloc, 10, 2, asked(Primitive::StartProcess, 107, 109));
    restarts(&rt, alloc, 10, 3, asked(Primitive::SetProcessFilter, 9, 18));
    restarts(&rt, alloc, 10, 4, asked(set, 9, 19));
    restarts(&rt, alloc, 10, 5, None);
    restarts(&rt, alloc, 98, 0, asked(Primitive::Insert, 101, -1));
    restarts(&rt, alloc, 98, 1, asked(Primitive::ProcessFilter, 4, -1));
}

#[test]
fn a_refused_start_ends_the_session(rt: HostRuntime) {
    let mut past = looked(&rt, rt.alloc(), 5, 10);
    started(&rt, &mut past, 2);
    past.push(Reply::Fault(Fault::SpawnFailed))
        .expect(&rt, "memory");
    tells(&rt, rt.alloc(), b"killed\n", &past, None);
}

/// A sentinel of a session with at most so many restarts does this next, where one ends the fifth time.
fn is_limited(rt: &impl Abort, alloc: Global, limit: u32, step: Option<Step>) {
    let past = looked(rt, alloc, 5, 10);
    is(rt, next(rt, alloc, limit, 1, b"killed\n", &past), step);
}

#[test]
fn there_are_no_more_restarts_than_the_limit(rt: HostRuntime) {
    let again = asked(Primitive::ProcessFilter, 4, -1);
    is_limited(&rt, rt.alloc(), 5, again);
    is_limited(&rt, rt.alloc(), 4, None);
}

/// Whether a value is a string of these characters.
fn is_text(value: &Value, chars: &[char]) -> bool {
    let Value::Str(text) = value else {
        return false;
    };
    if text.len() != chars.len() {
        return false;
    }
    for i in 0..chars.len() {
        if text.ch(i) != Ch::Scalar(chars[i]) {
            return false;
        }
    }
    true
}

/// The call of a form.
fn call_of(form: &Form) -> Option<&Call> {
    match form {
        Form::Do(call) => Some(call),
        Form::Setq(_, call) => Some(call),
        _ => None,
    }
}

/// The name of a form's call, and how many arguments it has.
fn outline(form: &Form) -> Option<(Primitive, usize)> {
    call_of(form).map(|call| (call.prim, call.args.len()))
}

/// The outlines of forms by their places.
const OUTLINES: [(usize, Primitive, usize); 5] = [
    (0, Primitive::StartProcess, 4),
    (1, Primitive::SetProcessFilter, 2),
    (2, Primitive::SetProcessSentinel, 2),
    (3, Primitive::AcceptProcessOutput, 0),
    (65_538, Primitive::AcceptProcessOutput, 0),
];

fn are_outlined(rt: &impl Abort, forms: &[Form]) {
    is(rt, forms.len(), 65_539);
    for (i, prim, count) in &OUTLINES {
        is(rt, forms.get(*i).and_then(outline), Some((*prim, *count)));
    }
}

fn has_names(rt: &impl Abort, symbols: &Symbols) {
    is(rt, symbols.count(), 20);
    is(rt, symbols.find("session-sentinel"), Some(Sym(19)));
}

fn script(rt: &impl Abort, session: &LineSession) -> Script {
    session.script().expect(rt, "memory")
}

#[test]
fn the_script_starts_the_child_and_waits(rt: HostRuntime) {
    let script = script(&rt, &session(&rt, rt.alloc(), 2));
    has_names(&rt, &script.symbols);
    is(&rt, script.handlers.len(), 0);
    are_outlined(&rt, script.forms.as_slice());
}

/// Whether a call with three arguments has this program as the last.
fn starts(call: &Call, program: &[char]) -> bool {
    match call.args.as_slice() {
        [_, _, Arg::Const(value)] => is_text(value, program),
        _ => false,
    }
}

/// Whether the first form of a script starts this program, with no arguments for it.
fn starts_first(script: &Script, program: &[char]) -> bool {
    match script.forms.as_slice().first().and_then(call_of) {
        Some(call) => starts(call, program),
        None => false,
    }
}

#[test]
fn a_word_is_decoded(rt: HostRuntime) {
    let session = LineSession::new(rt.alloc(), 0, "é€😀", &[]).expect(&rt, "memory");
    let script = script(&rt, &session);
    holds(&rt, starts_first(&script, &['é', '€', '😀']));
}

#[test]
fn the_natives_have_their_names(rt: HostRuntime) {
    let session = session(&rt, rt.alloc(), 2);
    is(&rt, session.count(), 2);
    is(&rt, session.name(0), "session-filter");
    is(&rt, session.name(1), "session-sentinel");
    is(&rt, session.name(2), "");
}
