//! Undo.

use super::playing::check_rows;

const LISTS: &str = r#"# the undo list as it is printed
insert | "abcd" => nil
copy-marker | 3 => #<marker at 3 in *scratch*>
undo-boundary => nil
delete-region | 2 | 4 => nil
buffer-undo-list => (("bc" . 2) (#<marker at 2 in *scratch*> . -1) 5 nil (1 . 5) (t . 0))

# an insertion goes on where the newest ended, and not across a boundary
undo-boundary => nil
buffer-undo-list => nil
insert | "a" => nil
insert | "b" => nil
buffer-undo-list => ((1 . 3) (t . 0))
goto-char | 1 => 1
insert | "c" => nil
undo-boundary => nil
undo-boundary => nil
insert | "d" => nil
buffer-undo-list => ((2 . 3) nil (1 . 2) (1 . 3) (t . 0))

# a record for each property and each run of one old value
insert | "abcd" / 1 2 face bold => nil
undo-boundary => nil
put-text-property | 1 | 5 | face | italic => nil
buffer-undo-list => ((nil face nil 3 . 5) (nil face bold 2 . 3) (nil face nil 1 . 2) nil (1 . 5) (t . 0))
undo-start => nil
undo-more | 1 => nil
buffer-string => #("abcd" 1 2 (face bold))
buffer-disable-undo => nil
buffer-enable-undo => nil
add-text-properties | 1 | 2 | [face italic priority 1] => t
buffer-undo-list => ((nil face nil 1 . 2) (nil priority nil 1 . 2))

# point is recorded behind a boundary alone, and where it isn't at the start
insert | "abcd" => nil
undo-boundary => nil
goto-char | 4 => 4
delete-region | 1 | 2 => nil
delete-region | 1 | 2 => nil
buffer-undo-list => (("b" . 1) ("a" . 1) 4 nil (1 . 5) (t . 0))
undo-start => nil
undo-more | 1 => nil
buffer-string => "abcd"
point => 4
goto-char | 1 => 1
undo-boundary => nil
delete-region | 1 | 4 => nil
buffer-undo-list => (("abc" . 1) nil (1 . 2) (1 . 2) ("b" . 1) ("a" . 1) 4 nil (1 . 5) (t . 0))

# a record of the flag at each first change
insert | "a" => nil
set-buffer-modified-p | nil => nil
insert | "b" => nil
buffer-undo-list => ((2 . 3) (t . 0) (1 . 2) (t . 0))
undo-start => nil
undo-more | 1 => nil
buffer-modified-p => nil
buffer-size => 0

# nothing is recorded where recording is off
insert | "ab" => nil
undo-more | 1 => ! no-further-undo
buffer-disable-undo => nil
undo-start => ! undo-disabled
buffer-undo-list => t
insert | "c" => nil
undo-boundary => nil
undo-more | 1 => ! undo-disabled
buffer-enable-undo => nil
buffer-undo-list => nil
insert | "d" => nil
buffer-enable-undo => nil
buffer-undo-list => ((4 . 5))

# how many groups may be undone
insert | "ab" => nil
undo-start => nil
undo-more | 0 => ! args-out-of-range
undo-more | -1 => ! args-out-of-range
undo-more | 65537 => ! args-out-of-range
undo-more | 65536 => nil
buffer-string => ""
undo-more | 1 => ! no-further-undo

# another change drops what was to be undone, and a move of point doesn't
insert | "ab" => nil
undo-start => nil
goto-char | 1 => 1
insert | "" => nil
put-text-property | 1 | 2 | face | nil => nil
undo-more | 1 => nil
buffer-string => ""
insert | "ab" => nil
undo-start => nil
put-text-property | 1 | 2 | face | bold => nil
undo-more | 1 => ! no-further-undo"#;

const GROUPS: &str = r#"# undo in groups, and undo of that undo
insert | "abcd" => nil
undo-boundary => nil
insert | "xy" => nil
put-text-property | 1 | 3 | face | bold => nil
delete-region | 2 | 4 => nil
undo-boundary => nil
undo-start => nil
undo-more | 2 => nil
buffer-string => "abcd"
undo-boundary => nil
undo-start => nil
undo-more | 2 => nil
buffer-string => #("adxy" 0 1 (face bold))
point => 2

# a deletion comes back with its properties
insert | "ab" / 0 2 face bold => nil
undo-boundary => nil
delete-region | 1 | 2 => nil
undo-start => nil
undo-more | 1 => nil
buffer-string => #("ab" 0 2 (face bold))

# an empty group behind the newest boundary
insert | "ab" => nil
undo-boundary => nil
insert | "c" => nil
undo-boundary => nil
undo-start => nil
undo-more | 1 => nil
buffer-string => "abc"
undo-more | 1 => nil
buffer-string => "ab"
undo-more | 1 => nil
undo-more | 1 => ! no-further-undo
buffer-string => ""
buffer-modified-p => nil

# an undo outside the accessible portion is refused, and may be made when it is widened
insert | "abcd" => nil
undo-start => nil
narrow-to-region | 1 | 2 => nil
undo-more | 1 => ! undo-outside
buffer-size => 4
widen => nil
undo-more | 1 => nil
buffer-size => 0
buffer-modified-p => nil
buffer-undo-list => (("abcd" . 1) (1 . 5) (t . 0))

# a group is tried as a whole before anything is undone
insert | "abcd" => nil
undo-boundary => nil
delete-region | 4 | 5 => nil
goto-char | 1 => 1
insert | "x" => nil
undo-start => nil
narrow-to-region | 1 | 3 => nil
undo-more | 1 => ! undo-outside
buffer-string => "xa"
narrow-to-region | 1 | 5 => nil
undo-more | 1 => nil
buffer-string => "abcd"
point => 5

# markers go back where they stood at the deletion, and stay where they were set since
insert | "abcd" => nil
copy-marker | 3 => #<marker at 3 in *scratch*>
copy-marker | 3 | t => #<marker (moves after insertion) at 3 in *scratch*>
copy-marker | 3 => #<marker at 3 in *scratch*>
copy-marker | 2 => #<marker at 2 in *scratch*>
copy-marker | 4 | t => #<marker (moves after insertion) at 4 in *scratch*>
goto-char | 2 => 2
undo-boundary => nil
delete-region | 2 | 4 => nil
buffer-undo-list => (("bc" . 2) (#<marker at 2 in *scratch*> . -1) (#<marker (moves after insertion) at 2 in *scratch*> . 1) (#<marker at 2 in *scratch*> . -1) nil (1 . 5) (t . 0))
set-marker | marker:2 | 1 => #<marker at 1 in *scratch*>
goto-char | 3 => 3
undo-start => nil
undo-more | 1 => nil
point => 2
marker-position | marker:0 => 3
marker-position | marker:1 => 3
marker-position | marker:2 => 1
marker-position | marker:3 => 2
marker-position | marker:4 => 4

# each buffer has records of its own
insert | "ab" => nil
get-buffer-create | " w" => #<buffer  w>
set-buffer | buffer:1 => #<buffer  w>
buffer-undo-list => nil
insert | "c" => nil
undo-start => nil
set-buffer | buffer:0 => #<buffer *scratch*>
undo-more | 1 => ! no-further-undo
insert | "d" => nil
set-buffer | buffer:1 => #<buffer  w>
undo-more | 1 => nil
buffer-size => 0
buffer-size | buffer:0 => 3"#;

#[test]
fn the_rows_of_undoing_give_their_replies(rt: HostRuntime) {
    check_rows(&rt, rt.alloc(), LISTS);
    check_rows(&rt, rt.alloc(), GROUPS);
}
