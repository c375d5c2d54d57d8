//! Waits, and how children end.

use super::playing::{Child, Row};
use host_link::Ended;

/// A child that is silent for five reads.
const SILENT: Child = Child {
    reads: &[b"", b"", b"", b"", b""],
    ends: &[],
};

/// Runs, each with its lines and its exchanges.
pub const ROWS: [Row; 4] = [
    Row {
        shows: "a wait for just one process asks no other, and another wait asks all in rounds",
        script: r#"(setq p (start-process "p" nil "a"))(setq q (start-process "q" nil "b"))
(accept-process-output p 3 t)(accept-process-output p 2)"#,
        children: &[SILENT, SILENT],
        lines: r#"= #<process p>
= #<process q>
= nil
= nil
kill #<process p>
kill #<process q>
buffer *scratch* point 1 min 1 max 1 modified nil current
text ""
marker 0 #<marker in no buffer>
marker 1 #<marker in no buffer>
process 0 #<process p> run 0
process 1 #<process q> run 0
"#,
        exchanges: b"spawn a: started 0
spawn b: started 1
read 0: nothing
read 0: nothing
read 0: nothing
read 0: nothing
read 1: nothing
read 0: nothing
read 1: nothing
kill 0: killed
kill 1: killed
",
    },
    Row {
        shows: "a sort whose sentinel is set, and its exit code",
        script: r#"(defhandler s (p m))
(setq p (start-process "sorted" "out" "sh" "-c" "printf 'b\\na\\n' | sort; exit 3"))
(set-process-sentinel p 's)(accept-process-output p)(accept-process-output p)(process-exit-status p)"#,
        children: &[Child {
            reads: &[b"a\nb\n"],
            ends: &[Ended::Code(3)],
        }],
        lines: r#"= #<process sorted>
= s
> filter default #<process sorted> "a\nb\n"
< default
= t
> sentinel s #<process sorted> "exited abnormally with code 3\n"
< s
= nil
= 3
buffer *scratch* point 1 min 1 max 1 modified nil current
text ""
buffer out point 5 min 1 max 5 modified t
text "a\nb\n"
marker 0 #<marker at 5 in out>
process 0 #<process sorted> exit 3
"#,
        exchanges: b"spawn sh -c printf 'b\\na\\n' | sort; exit 3: started 0
read 0: bytes a
b

read 0: end
end 0: code 3
",
    },
    Row {
        shows: "a child is heard out",
        script: r#"(start-process "c" "*scratch*" "cat" "-u" "")
(accept-process-output)(accept-process-output)(accept-process-output)"#,
        children: &[Child {
            reads: &[b"ab", b""],
            ends: &[Ended::Running, Ended::Code(3)],
        }],
        lines: r#"= #<process c>
> filter default #<process c> "ab"
< default
= t
> sentinel default #<process c> "exited abnormally with code 3\n"
< default
= nil
= nil
buffer *scratch* point 44 min 1 max 44 modified t current
text "ab\nProcess c exited abnormally with code 3\n"
marker 0 #<marker at 44 in *scratch*>
process 0 #<process c> exit 3
"#,
        exchanges: b"spawn cat -u : started 0
read 0: bytes ab
read 0: nothing
read 0: end
end 0: running
end 0: code 3
",
    },
    Row {
        shows: "input is sent and closed",
        script: r#"(setq p (start-process "c" nil "cat"))
(process-send-string p "é\n")(process-send-eof p)(accept-process-output p)"#,
        children: &[Child {
            reads: &[],
            ends: &[Ended::Signal],
        }],
        lines: r#"= #<process c>
= nil
= #<process c>
> sentinel default #<process c> "killed\n"
< default
= nil
buffer *scratch* point 1 min 1 max 1 modified nil current
text ""
marker 0 #<marker in no buffer>
process 0 #<process c> signal nil
"#,
        exchanges: b"spawn cat: started 0
send 0 \xC3\xA9
: sent
close 0: closed
read 0: end
end 0: signal
",
    },
];
