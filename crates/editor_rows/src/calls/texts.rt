//! Texts and narrowing.

use super::playing::check_rows;

const ROWS: &str = r#"# a deletion, as on the first path
insert | "hello" => nil
goto-char | 2 => 2
delete-region | 2 | 3 => nil
buffer-string => "hllo"
point => 2
delete-region | 1 | 9 => ! args-out-of-range
delete-region | 3 | 3 => nil
buffer-string => "hllo"

# several strings are one insertion, and point goes behind it
insert | "ab" | "" | "c" => nil
goto-char | 2 => 2
insert | "x" | "yz" => nil
buffer-string => "axyzbc"
point => 5
buffer-size => 6
buffer-undo-list => ((2 . 5) (1 . 4) (t . 0))

# several strings keep their properties side by side; they are one record, and markers stand as at one string
insert | "mn" => nil
undo-boundary => nil
copy-marker | 2 => #<marker at 2 in *scratch*>
copy-marker | 2 | t => #<marker (moves after insertion) at 2 in *scratch*>
goto-char | 2 => 2
insert | "ab" / 1 2 face bold | "" | "cd" / 0 1 face bold | "e" => nil
buffer-string => #("mabcden" 2 4 (face bold))
point => 7
marker-position | marker:0 => 2
marker-position | marker:1 => 7
buffer-undo-list => ((2 . 7) nil (1 . 3) (t . 0))

# each of several strings inherits, and keeps its own properties
insert | "a" / 0 1 face bold => nil
insert-and-inherit | "b" | "" | "c" / 0 1 face italic => nil
buffer-string => #("abc" 0 2 (face bold) 2 3 (face italic))
buffer-undo-list => ((1 . 4) (t . 0))

# an empty buffer
point => 1
point-min => 1
point-max => 1
buffer-size | nil => 0
char-after => nil
char-after | 1 => nil
buffer-string => ""
buffer-substring | 1 | 1 => ""
delete-region | 1 | 1 => nil
delete-and-extract-region | 1 | 1 => ""
erase-buffer => nil
narrow-to-region | 1 | 1 => nil
buffer-narrowed-p => nil
goto-char | 7 => 7
point => 1

# characters, and parts with and without properties
insert | "aé€d" / 1 3 face bold => nil
char-after | 2 => 233
char-after | 3 => 8364
char-after => nil
buffer-substring | 4 | 2 => #("é€" 0 2 (face bold))
buffer-substring | 3 | 5 => #("€d" 0 1 (face bold))
buffer-substring | 4 | 5 => "d"
buffer-substring-no-properties | 1 | 4 => "aé€"
delete-and-extract-region | 3 | 1 => #("aé" 1 2 (face bold))
buffer-string => #("€d" 0 1 (face bold))
point => 3

# a narrowing, and changes at its ends
insert | "abcdef" => nil
narrow-to-region | 4 | 2 => nil
point => 4
buffer-narrowed-p => t
buffer-string => "bc"
insert | "X" => nil
goto-char | 1 => 1
insert | "Y" => nil
buffer-string => "YbcX"
point-min => 2
point-max => 6
delete-region | 2 | 6 => nil
buffer-string => ""
point-min => 2
widen => nil
buffer-string => "adef"
buffer-narrowed-p => nil

# erasing widens first
insert | "abcd" => nil
narrow-to-region | 2 | 3 => nil
erase-buffer => nil
buffer-size => 0
buffer-narrowed-p => nil
buffer-undo-list => (("abcd" . 1) (1 . 5) (t . 0))

# a part of another buffer, and of the same one
insert | "abcd" / 0 2 face bold => nil
narrow-to-region | 2 | 4 => nil
get-buffer-create | "w" => #<buffer w>
set-buffer | buffer:1 => #<buffer w>
insert-buffer-substring | buffer:0 => nil
buffer-string => #("bc" 0 1 (face bold))
insert-buffer-substring | "*scratch*" | 4 | 3 => nil
insert-buffer-substring | "*scratch*" | 3 => nil
insert-buffer-substring | "*scratch*" | nil | 3 => nil
insert-buffer-substring | "*scratch*" | 4 | 4 => nil
buffer-string => #("bcccb" 0 1 (face bold) 4 5 (face bold))
insert-buffer-substring | "*scratch*" | 1 | 3 => ! args-out-of-range
insert-buffer-substring | "*scratch*" | 2 | 5 => ! args-out-of-range
insert-buffer-substring | "w" => nil
buffer-size => 10

# in one class the first argument is refused, and kinds before objects
buffer-substring | 0 | t => ! wrong-type-argument
insert-buffer-substring | "w" | t => ! wrong-type-argument
insert-buffer-substring | "w" | 9 => ! no-such-buffer
make-marker => #<marker in no buffer>
make-overlay | marker:0 | 1 | "w" => ! no-such-buffer
make-overlay | marker:0 | 1 => ! args-out-of-range
buffer-disable-undo => nil
undo-more | 0 => ! args-out-of-range
undo-more | 1 => ! undo-disabled"#;

#[test]
fn the_rows_of_texts_give_their_replies(rt: HostRuntime) {
    check_rows(&rt, rt.alloc(), ROWS);
}
