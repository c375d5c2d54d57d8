//! Handlers of the program's own.

use super::acting::{InTurn, Native};
use super::playing::{Child, PLAIN, TO_RUN, check_ran, plays, run_natives};
use ek_call::{Primitive, Value};
use ek_types::{Ch, Chars, ListOf, Piece, Sym};
use handler_code::NativeCall;
use std::alloc::Global;
use std::process::Abort;

/// A call with no arguments.
fn call(alloc: Global, prim: Primitive) -> NativeCall {
    let args = ListOf::new(alloc);
    NativeCall { prim, args }
}

/// A call with one argument.
fn call_of(rt: &impl Abort, alloc: Global, prim: Primitive, value: Value) -> NativeCall {
    let mut args = ListOf::new(alloc);
    args.push(value).expect(rt, "memory");
    NativeCall { prim, args }
}

/// A list of one symbol.
fn list_of(rt: &impl Abort, alloc: Global, symbol: u32) -> Value {
    let mut items = ListOf::new(alloc);
    items.push(Value::Sym(Sym(symbol))).expect(rt, "memory");
    Value::List(items)
}

/// A string of one letter.
fn letter(rt: &impl Abort, alloc: Global, c: char) -> Value {
    let mut text = Chars::new(alloc);
    text.push(Ch::Scalar(c)).expect(rt, "memory");
    Value::Str(Piece::plain(alloc, text).expect(rt, "memory"))
}

/// A native with no calls yet.
fn named(rt: &impl Abort, alloc: Global, name: &str) -> Native {
    Native {
        name: String::from_str(alloc, name).expect(rt, "memory"),
        calls: Vec::new(alloc),
    }
}

/// Waits for the process of this name, and asks for its status.
fn waiting(rt: &impl Abort, alloc: Global, name: &str, process: char) -> Native {
    let mut native = named(rt, alloc, name);
    native.then(
        rt,
        call_of(
            rt,
            alloc,
            Primitive::AcceptProcessOutput,
            letter(rt, alloc, process),
        ),
    );
    native.then(
        rt,
        call_of(
            rt,
            alloc,
            Primitive::ProcessStatus,
            letter(rt, alloc, process),
        ),
    );
    native
}

/// Compares the run of a script with two natives with its lines and its exchanges.
fn check(
    rt: &impl Abort,
    alloc: Global,
    first: Native,
    second: Native,
    script: &str,
    children: &[Child],
    lines: &str,
    exchanges: &[u8],
) {
    let mut natives = Vec::new(alloc);
    natives.push(first).expect(rt, "memory");
    natives.push(second).expect(rt, "memory");
    let natives = InTurn::new(natives);
    let plays = plays(rt, alloc, children);
    let ran = run_natives(rt, alloc, &TO_RUN, script, plays, PLAIN, &natives);
    check_ran(rt, alloc, script, &ran, lines, exchanges)
}

const TWO: [Child; 2] = [
    Child {
        reads: &[b"a", b"c"],
        ends: &[],
    },
    Child {
        reads: &[b"b", b"d"],
        ends: &[],
    },
];

/// The lines of two natives, each of which waits for the process of the other.
const WAITING: &str = r#"= #<process p>
= #<process q>
= ping
= pong
> filter ping #<process p> "a"
  > filter pong #<process q> "b"
    > filter ping #<process p> "c"
      > filter pong #<process q> "d"
        > sentinel default #<process p> "finished\n"
        < default
        = nil
        ! 9 no-such-process
      < pong
      = t
      = run
    < ping
    = t
    ! 9 no-such-process
  < pong
  = t
  = run
< ping
= t
= nil
kill #<process q>
buffer *scratch* point 1 min 1 max 1 modified nil current
text ""
marker 0 #<marker in no buffer>
marker 1 #<marker in no buffer>
process 0 #<process p> exit 0
process 1 #<process q> run 0
"#;

/// Each is entered twice, at every other depth, and goes on where it was. A process that has left
/// the list isn't found by its name; that fault is one more reply.
#[test]
fn two_natives_wait_for_each_others_process_and_go_on(rt: HostRuntime) {
    let first = waiting(&rt, rt.alloc(), "ping", 'q');
    let second = waiting(&rt, rt.alloc(), "pong", 'p');
    check(
        &rt,
        rt.alloc(),
        first,
        second,
        r#"(setq p (start-process "p" nil "a"))(setq q (start-process "q" nil "b"))
(set-process-filter p 'ping)(set-process-filter q 'pong)(accept-process-output p)(accept-process-output p)"#,
        &TWO,
        WAITING,
        b"spawn a: started 0
spawn b: started 1
read 0: bytes a
read 1: bytes b
read 0: bytes c
read 1: bytes d
read 0: end
read 1: end
end 0: code 0
kill 1: killed
",
    )
}

/// The native goes on in the buffer that is current then; the change has no buffer any more.
#[test]
fn a_change_is_refused_whose_buffer_a_native_kills(rt: HostRuntime) {
    let alloc = rt.alloc();
    let mut first = named(&rt, alloc, "k");
    first.then(&rt, call(alloc, Primitive::KillBuffer));
    first.then(&rt, call(alloc, Primitive::CurrentBuffer));
    let second = named(&rt, alloc, "other");
    check(
        &rt,
        alloc,
        first,
        second,
        r#"(get-buffer-create "w")(set-buffer "w")(insert "ab")(add-hook 'before-change-functions 'k)(insert "c")"#,
        &[],
        r#"= #<buffer w>
= #<buffer w>
= nil
= (k)
> before k 3 3
  = t
  = #<buffer *scratch*>
< k
! 5 buffer-killed
buffer *scratch* point 1 min 1 max 1 modified nil current
text ""
"#,
        b"",
    )
}

/// The lines of a native whose calls are refused, and which is entered once more.
const ODD: &str = r#"= (odd)
> before odd 1 1
  ! 2 wrong-type-argument
  ! 2 wrong-type-argument
  ! 2 wrong-type-argument
  = nil
  ! 2 wrong-type-argument
< odd
= nil
> before odd 2 2
  ! 2 wrong-type-argument
  ! 2 wrong-type-argument
  ! 2 wrong-type-argument
  = nil
  ! 2 wrong-type-argument
< odd
= nil
buffer *scratch* point 3 min 1 max 3 modified t current
text "xy"
"#;

/// Too few arguments and too many, a buffer and a symbol that were never made, and a symbol that
/// was. These faults end neither the native nor its hook list.
#[test]
fn odd_calls_of_a_native_are_of_a_wrong_type(rt: HostRuntime) {
    let alloc = rt.alloc();
    let mut first = named(&rt, alloc, "odd");
    first.then(&rt, call(alloc, Primitive::GotoChar));
    first.then(&rt, call_of(&rt, alloc, Primitive::Point, Value::T));
    first.then(
        &rt,
        call_of(&rt, alloc, Primitive::SetBuffer, Value::Buffer(9)),
    );
    first.then(
        &rt,
        call_of(&rt, alloc, Primitive::BufferLiveP, list_of(&rt, alloc, 0)),
    );
    first.then(
        &rt,
        call_of(&rt, alloc, Primitive::BufferLiveP, list_of(&rt, alloc, 99)),
    );
    let second = named(&rt, alloc, "other");
    check(
        &rt,
        alloc,
        first,
        second,
        "(add-hook 'before-change-functions 'odd)(insert \"x\")(insert \"y\")",
        &[],
        ODD,
        b"",
    )
}

/// The most replies to one entry of a native.
const MOST_REPLIES: usize = 256;

#[test]
fn a_native_that_never_ends_is_left(rt: HostRuntime) {
    let alloc = rt.alloc();
    let mut first = named(&rt, alloc, "n");
    for _ in 0..1000 {
        first.then(&rt, call(alloc, Primitive::Point));
    }
    let second = named(&rt, alloc, "other");
    let replies = "  = 1\n".repeat(alloc, MOST_REPLIES).expect(&rt, "memory");
    let lines = format!(in alloc;
        "= (n)
> before n 1 1
{replies}< n
= nil
buffer *scratch* point 2 min 1 max 2 modified t current
text \"a\"
"
    )
    .expect(&rt, "memory");
    check(
        &rt,
        alloc,
        first,
        second,
        "(add-hook 'before-change-functions 'n)(insert \"a\")",
        &[],
        lines.as_str(),
        b"",
    )
}

/// A script with two natives of one name, and what its hook function answers.
struct Hiding {
    script: &'static str,
    reply: &'static str,
}

const HIDING: [Hiding; 2] = [
    Hiding {
        script: "(add-hook 'before-change-functions 'n)(insert \"a\")",
        reply: "1",
    },
    Hiding {
        script: "(defhandler n (b e) (buffer-name))(add-hook 'before-change-functions 'n)(insert \"a\")",
        reply: "\"*scratch*\"",
    },
];

fn check_hiding(rt: &impl Abort, alloc: Global, script: &str, reply: &str) {
    let mut first = named(rt, alloc, "n");
    first.then(rt, call(alloc, Primitive::Point));
    let mut second = named(rt, alloc, "n");
    second.then(rt, call(alloc, Primitive::CurrentBuffer));
    let lines = format!(in alloc;
        "= (n)
> before n 1 1
  = {reply}
< n
= nil
buffer *scratch* point 2 min 1 max 2 modified t current
text \"a\"
"
    )
    .expect(rt, "memory");
    check(rt, alloc, first, second, script, &[], lines.as_str(), b"");
}

/// Of natives of one name the first counts, and a handler of the script before both.
#[test]
fn a_handler_of_the_script_hides_natives_of_its_name(rt: HostRuntime) {
    for hiding in &HIDING {
        check_hiding(&rt, rt.alloc(), hiding.script, hiding.reply);
    }
}
