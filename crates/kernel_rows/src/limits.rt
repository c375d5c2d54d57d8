//! A run that comes to a limit.

use super::playing::{check_run, one_child};
use super::texts::push;
use std::alloc::Global;
use std::process::Abort;

/// The most exchanges but for kills.
const MOST_EXCHANGES: usize = 65_536;

/// A text between two others, so often.
fn repeated(
    rt: &impl Abort,
    alloc: Global,
    first: &str,
    part: &str,
    count: usize,
    last: &str,
) -> String {
    let mut text = String::from_str(alloc, first).expect(rt, "memory");
    for _ in 0..count {
        push(rt, &mut text, part);
    }
    push(rt, &mut text, last);
    text
}

/// The lines behind the last waits.
const SPENT: &str = "! 14 exchanges-spent
kill #<process c>
buffer *scratch* point 1 min 1 max 1 modified nil current
text \"\"
marker 0 #<marker in no buffer>
process 0 #<process c> run 0
";

/// Reads that find nothing, as many as are left behind the start of a child.
fn silence(rt: &impl Abort, alloc: Global) -> Vec<&'static [u8]> {
    let mut reads: Vec<&'static [u8]> = Vec::new(alloc);
    for _ in 0..MOST_EXCHANGES - 1 {
        reads.push(b"").expect(rt, "memory");
    }
    reads
}

/// Of the 66 waits of 1,000 rounds the last has 535 left. The kill is asked all the same.
#[test]
fn a_wait_beyond_65536_exchanges_is_refused(rt: HostRuntime) {
    let script = repeated(
        &rt,
        rt.alloc(),
        "(setq p (start-process \"c\" nil \"cat\"))",
        "(accept-process-output p 1000)",
        66,
        "",
    );
    let lines = repeated(&rt, rt.alloc(), "= #<process c>\n", "= nil\n", 65, SPENT);
    let exchanges = repeated(
        &rt,
        rt.alloc(),
        "spawn cat: started 0\n",
        "read 0: nothing\n",
        MOST_EXCHANGES - 1,
        "kill 0: killed\n",
    );
    check_run(
        &rt,
        rt.alloc(),
        "no exchange is left",
        script.as_str(),
        one_child(&rt, rt.alloc(), silence(&rt, rt.alloc()).as_slice()),
        lines.as_str(),
        exchanges.as_bytes(),
    )
}

/// The characters of the largest text.
const LARGEST_TEXT: usize = 4_194_304;

/// The lines from the size of the buffer on.
const FULL: &str = "= 4194303
= (h)
> before h 4194304 4194304
  > filter default #<process c> \"y\"
  < default
  = t
< h
! 15 buffer-full
! 15 buffer-full
> filter default #<process c> \"w\"
  ! 15 buffer-full
< default
= t
= 1
= 121
= 4194304
> sentinel default #<process c> \"killed\\n\"
  ! 15 buffer-full
< default
= t
buffer *scratch* point 1 min 1 max 1 modified nil current
text \"\"
marker 0 #<marker in no buffer>
process 0 #<process c> signal nil
";

/// A script that fills a buffer but for one character, which two more are put into.
fn filling(rt: &impl Abort, alloc: Global) -> String {
    let letters = "x".repeat(alloc, LARGEST_TEXT / 64).expect(rt, "memory");
    let doubled = "(insert-buffer-substring \"out\")"
        .repeat(alloc, 4)
        .expect(rt, "memory");
    format!(in alloc;
        "(defhandler h (b e) (accept-process-output p))
(setq p (start-process \"c\" \"out\" \"cat\"))(set-buffer \"out\")(insert \"{letters}\"){doubled}
(insert-buffer-substring \"out\" 1 1048577)(insert-buffer-substring \"out\" 1 1048577)
(insert-buffer-substring \"out\" 1 1048576)(buffer-size)(add-hook 'before-change-functions 'h)
(insert \"z\")(insert \"z\")(accept-process-output p)(goto-char 1)(char-after)(buffer-size)(kill-buffer)"
    )
    .expect(rt, "memory")
}

/// A text that fits when it is prepared doesn't where the output that its hook waits for has filled
/// the buffer meanwhile. What comes then is refused too: by preparing, and by the default handlers.
#[test]
fn an_insertion_is_refused_whose_hook_lets_output_fill_the_buffer(rt: HostRuntime) {
    let script = filling(&rt, rt.alloc());
    let lines = repeated(
        &rt,
        rt.alloc(),
        "= #<process c>\n= #<buffer out>\n",
        "= nil\n",
        8,
        FULL,
    );
    check_run(
        &rt,
        rt.alloc(),
        "output fills a buffer inside a hook",
        script.as_str(),
        one_child(&rt, rt.alloc(), &[b"y", b"w"]),
        lines.as_str(),
        b"spawn cat: started 0
read 0: bytes y
read 0: bytes w
kill 0: killed
",
    )
}
