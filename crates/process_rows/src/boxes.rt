//! The shipped handlers against the reference, reply by reply, and lists of boxes.
use crate::checking::is;
use ek_call::{Fault, Primitive, Replies, Reply, Value, Values};
use ek_types::{Copied, ListOf, Sym};
use handler_box::{Boxed, DropFilter, Handler, InsertFilter, NoteSentinel};
use handler_code::{Natives, Next};
use std::alloc::Global;
use std::process::Abort;

/// What the calls of the insert filter answer where point stands at `point` and the mark at 3, and three characters
/// go in.
fn inserted(call: usize, point: i64) -> Value {
    match call {
        0 => Value::Buffer(1),
        2 => Value::Int(point),
        3 => Value::Marker(7),
        4 => Value::Int(3),
        7 => Value::Int(6),
        _ => Value::T,
    }
}

/// What the calls of the note sentinel answer.
fn noted(call: usize) -> Value {
    match call {
        0 => Value::Buffer(2),
        2 => Value::Int(9),
        _ => Value::T,
    }
}

/// The first replies to the calls of the insert filter.
fn replies(rt: &impl Abort, alloc: Global, count: usize, point: i64) -> Replies {
    let mut past = ListOf::new(alloc);
    for call in 0..count {
        push(rt, &mut past, Reply::Value(inserted(call, point)));
    }
    past
}

/// The first replies to the calls of the note sentinel.
fn notes(rt: &impl Abort, alloc: Global, count: usize) -> Replies {
    let mut past = ListOf::new(alloc);
    for call in 0..count {
        push(rt, &mut past, Reply::Value(noted(call)));
    }
    past
}

/// One reply more.
fn push(rt: &impl Abort, past: &mut Replies, reply: Reply) {
    past.push(reply).expect(rt, "memory");
}

/// A process and no text.
fn arguments(rt: &impl Abort, alloc: Global) -> Values {
    let mut args = ListOf::new(alloc);
    args.push(Value::Process(4)).expect(rt, "memory");
    args.push(Value::Nil).expect(rt, "memory");
    args
}

/// The call that comes next, and the number that it gives as the first argument.
fn shown(next: &Next) -> Option<(Primitive, i64)> {
    match next {
        Next::Call(call) => Some((call.prim, first_number(&call.args))),
        Next::Done => None,
    }
}

/// The call that a handler makes next, and the number that it gives as the first argument.
fn asked<H: Handler>(
    rt: &impl Abort,
    alloc: Global,
    handler: &H,
    past: &Replies,
) -> Option<(Primitive, i64)> {
    let args = arguments(rt, alloc);
    shown(&handler.next(&args, past).expect(rt, "memory"))
}

/// The number of the first argument.
fn first_number(args: &Values) -> i64 {
    match args.as_slice().first() {
        Some(Value::Int(i)) => *i,
        Some(Value::Buffer(n)) => i64::from(*n),
        Some(Value::Marker(n)) => i64::from(*n),
        Some(Value::Process(n)) => i64::from(*n),
        Some(_) => -2,
        None => -1,
    }
}

/// The call that a handler makes next is this one, or there is none.
fn asks<H: Handler>(
    rt: &impl Abort,
    alloc: Global,
    handler: &H,
    past: &Replies,
    call: Option<(Primitive, i64)>,
) {
    is(rt, asked(rt, alloc, handler, past), call);
}

/// The first replies to the calls of the insert filter, and one more.
fn replies_and(rt: &impl Abort, alloc: Global, count: usize, last: Reply) -> Replies {
    let mut past = replies(rt, alloc, count, 5);
    push(rt, &mut past, last);
    past
}

const INSERTING: [Option<(Primitive, i64)>; 11] = [
    Some((Primitive::ProcessBuffer, 4)),
    Some((Primitive::SetBuffer, 1)),
    Some((Primitive::Point, -1)),
    Some((Primitive::ProcessMark, 4)),
    Some((Primitive::MarkerPosition, 7)),
    Some((Primitive::GotoChar, 7)),
    Some((Primitive::Insert, -2)),
    Some((Primitive::Point, -1)),
    Some((Primitive::SetMarker, 7)),
    Some((Primitive::GotoChar, 8)),
    None,
];

#[test]
fn the_insert_filter_makes_its_calls_in_order(rt: HostRuntime) {
    for (count, call) in INSERTING.iter().enumerate() {
        let past = replies(&rt, rt.alloc(), count, 5);
        asks(&rt, rt.alloc(), &InsertFilter::new(), &past, *call);
    }
}

/// The insert filter ends where this reply is a fault.
fn ends_at_a_fault(rt: &impl Abort, alloc: Global, count: usize) {
    let past = replies_and(rt, alloc, count, Reply::Fault(Fault::WrongType));
    asks(rt, alloc, &InsertFilter::new(), &past, None);
}

/// Whether the insert filter goes on where this reply is nil.
fn goes_on_at_nil(rt: &impl Abort, alloc: Global, count: usize) -> bool {
    let past = replies_and(rt, alloc, count, Reply::Value(Value::Nil));
    asked(rt, alloc, &InsertFilter::new(), &past).is_some()
}

#[test]
fn a_fault_or_nil_at_any_place_ends_the_insert_filter(rt: HostRuntime) {
    for count in 0..9 {
        ends_at_a_fault(&rt, rt.alloc(), count);
        let goes_on = goes_on_at_nil(&rt, rt.alloc(), count);
        is(&rt, goes_on, [1, 5, 6, 8].contains(&count));
    }
}

/// A value of each kind that a reply may be told by.
fn of_kind(kind: usize) -> Value {
    match kind {
        0 => Value::Nil,
        1 => Value::T,
        2 => Value::Int(3),
        3 => Value::Buffer(1),
        4 => Value::Marker(7),
        5 => Value::Overlay(6),
        6 => Value::Process(4),
        _ => Value::Sym(Sym(3)),
    }
}

/// Whether a handler goes on where a value of this kind is the last reply.
fn goes_on<H: Handler>(
    rt: &impl Abort,
    alloc: Global,
    handler: &H,
    before: &Replies,
    kind: usize,
) -> bool {
    let mut past = before.copy().expect(rt, "memory");
    push(rt, &mut past, Reply::Value(of_kind(kind)));
    asked(rt, alloc, handler, &past).is_some()
}

/// The kind of value that the insert filter wants as each reply, if one is wanted.
const WANTED: [Option<usize>; 9] = [
    Some(3),
    None,
    Some(2),
    Some(4),
    Some(2),
    None,
    None,
    Some(2),
    None,
];

/// A handler goes on behind these replies where a value of the wanted kind is the next, and not where it is of another;
/// behind a value of any kind, if none is wanted.
fn wants<H: Handler>(
    rt: &impl Abort,
    alloc: Global,
    handler: &H,
    before: &Replies,
    wanted: Option<usize>,
) {
    for kind in 0..8 {
        let fits = wanted.is_none() || wanted == Some(kind);
        is(rt, goes_on(rt, alloc, handler, before, kind), fits);
    }
}

#[test]
fn a_value_of_another_kind_ends_each_handler(rt: HostRuntime) {
    let alloc = rt.alloc();
    for (count, kind) in WANTED.iter().enumerate() {
        let before = replies(&rt, alloc, count, 5);
        wants(&rt, alloc, &InsertFilter::new(), &before, *kind);
    }
    for (count, kind) in [Some(3), None, Some(2), None].iter().enumerate() {
        let before = notes(&rt, alloc, count);
        wants(&rt, alloc, &NoteSentinel::new(), &before, *kind);
    }
}

/// Point goes to this place, where it stood at `point`.
fn goes_back(rt: &impl Abort, alloc: Global, point: i64, place: Option<i64>) {
    let past = replies(rt, alloc, 9, point);
    let call = asked(rt, alloc, &InsertFilter::new(), &past);
    is(rt, call.map(|c| c.1), place);
}

#[test]
fn point_goes_back_where_it_stood(rt: HostRuntime) {
    goes_back(&rt, rt.alloc(), 1, Some(1));
    goes_back(&rt, rt.alloc(), 2, Some(2));
    goes_back(&rt, rt.alloc(), 3, None);
    goes_back(&rt, rt.alloc(), 4, Some(7));
    goes_back(&rt, rt.alloc(), i64::MAX, None);
}

const NOTING: [Option<(Primitive, i64)>; 6] = [
    Some((Primitive::GetBufferCreate, -2)),
    Some((Primitive::SetBuffer, 2)),
    Some((Primitive::PointMax, -1)),
    Some((Primitive::GotoChar, 9)),
    Some((Primitive::Insert, -2)),
    None,
];

#[test]
fn the_note_sentinel_makes_its_calls_in_order(rt: HostRuntime) {
    for (count, call) in NOTING.iter().enumerate() {
        let past = notes(&rt, rt.alloc(), count);
        asks(&rt, rt.alloc(), &NoteSentinel::new(), &past, *call);
    }
}

#[test]
fn a_fault_at_any_place_ends_the_note_sentinel(rt: HostRuntime) {
    for count in 0..5 {
        let mut past = notes(&rt, rt.alloc(), count);
        push(&rt, &mut past, Reply::Fault(Fault::BufferKilled));
        asks(&rt, rt.alloc(), &NoteSentinel::new(), &past, None);
    }
}

#[test]
fn after_256_replies_each_is_done(rt: HostRuntime) {
    let past = replies(&rt, rt.alloc(), 256, 5);
    asks(&rt, rt.alloc(), &InsertFilter::new(), &past, None);
    asks(&rt, rt.alloc(), &NoteSentinel::new(), &past, None);
    asks(&rt, rt.alloc(), &DropFilter::new(), &past, None);
}

/// A note sentinel and an insert filter.
fn two_boxes(rt: &impl Abort, alloc: Global) -> Boxed {
    let mut list: Vec<Box<dyn Handler>> = Vec::new(alloc);
    list.push(Box::new(alloc, NoteSentinel::new()).expect(rt, "memory"))
        .expect(rt, "memory");
    list.push(Box::new(alloc, InsertFilter::new()).expect(rt, "memory"))
        .expect(rt, "memory");
    Boxed::new(list)
}

/// The call that a box makes first, as `shown` tells it.
fn first_call(
    rt: &impl Abort,
    alloc: Global,
    boxed: &Boxed,
    number: u32,
) -> Option<(Primitive, i64)> {
    let args = arguments(rt, alloc);
    let next = boxed.next(number, &args, &ListOf::new(alloc));
    shown(&next.expect(rt, "memory"))
}

#[test]
fn boxes_are_natives_in_their_order(rt: HostRuntime) {
    let boxed = two_boxes(&rt, rt.alloc());
    is(&rt, boxed.count(), 2);
    is(&rt, boxed.name(0), "note-sentinel");
    is(&rt, boxed.name(1), "insert-filter");
    let call = first_call(&rt, rt.alloc(), &boxed, 1);
    is(&rt, call, Some((Primitive::ProcessBuffer, 4)));
}

/// As many drop filters as fit, but for an insert filter at the end.
fn many_boxes(rt: &impl Abort, alloc: Global) -> Boxed {
    let mut list: Vec<Box<dyn Handler>> = Vec::new(alloc);
    for _ in 0..65535_u32 {
        list.push(Box::new(alloc, DropFilter::new()).expect(rt, "memory"))
            .expect(rt, "memory");
    }
    list.push(Box::new(alloc, InsertFilter::new()).expect(rt, "memory"))
        .expect(rt, "memory");
    Boxed::new(list)
}

#[test]
fn a_list_has_up_to_65536_boxes(rt: HostRuntime) {
    let boxed = many_boxes(&rt, rt.alloc());
    is(&rt, boxed.count(), 65536);
    is(&rt, boxed.name(65534), "drop-filter");
    is(&rt, boxed.name(65535), "insert-filter");
    is(&rt, boxed.name(65536), "");
}
