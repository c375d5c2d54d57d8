//! Buffers and texts that are read-only.

use super::playing::check_rows;

const ROWS: &str = r#"# a read-only buffer refuses what would change it
buffer-read-only-p => nil
insert | "ab" => nil
undo-start => nil
set-buffer-read-only | 0 => t
buffer-read-only-p | "*scratch*" => t
insert | "" => nil
insert | "c" => ! buffer-read-only
delete-region | 1 | 1 => nil
delete-region | 1 | 2 => ! buffer-read-only
delete-region | 1 | 99 => ! args-out-of-range
erase-buffer => ! buffer-read-only
delete-and-extract-region | 1 | 2 => ! buffer-read-only
insert-buffer-substring | buffer:0 => ! buffer-read-only
put-text-property | 1 | 2 | face | t => ! buffer-read-only
put-text-property | 1 | 2 | face | nil => nil
undo-more | 0 => ! args-out-of-range
undo-more | 1 => ! buffer-read-only
set-buffer-modified-p | nil => nil
narrow-to-region | 1 | 2 => nil
set-buffer-read-only | nil => nil
undo-more | 1 => ! undo-outside

# each buffer is read-only by itself
get-buffer-create | "w" => #<buffer w>
set-buffer-read-only | t => t
buffer-read-only-p | "w" => nil
rename-buffer | "v" => "v"
buffer-read-only-p | nil => t
set-buffer | "w" => #<buffer w>
insert | "a" => nil
kill-buffer | buffer:0 => t
buffer-read-only-p | buffer:0 => ! buffer-killed
buffer-read-only-p | "v" => ! no-such-buffer
get-buffer-create | "v" => #<buffer v>
buffer-read-only-p | "v" => nil

# read-only text refuses what would change it
insert | "abcd" => nil
put-text-property | 2 | 3 | read-only | 0 => nil
delete-region | 1 | 3 => ! text-read-only
erase-buffer => ! text-read-only
delete-region | 3 | 4 => nil
put-text-property | 1 | 4 | read-only | nil => ! text-read-only
put-text-property | 2 | 3 | read-only | 0 => nil
remove-text-properties | 2 | 3 | [face t] => nil
set-text-properties | 2 | 3 | nil => ! text-read-only
add-text-properties | 2 | 4 | [face t] => ! text-read-only
add-text-properties | 3 | 4 | [face t] => t
set-buffer-read-only | t => t
delete-region | 1 | 3 => ! buffer-read-only

# both neighbours say whether text may be put in
insert | "ab" / 0 1 front-sticky t read-only t / 1 2 rear-nonsticky t read-only t => nil
goto-char | 1 => 1
insert | "x" => ! text-read-only
insert-and-inherit | "" => nil
goto-char | 2 => 2
insert | "x" => ! text-read-only
insert-before-markers | "x" => ! text-read-only
insert-buffer-substring | buffer:0 => ! text-read-only
goto-char | 3 => 3
insert-and-inherit | "x" => nil
text-properties-at | 3 => nil
narrow-to-region | 2 | 2 => nil
insert | "y" => nil

# read-only text doesn't bar undoing
insert | "ab" => nil
put-text-property | 1 | 3 | read-only | t => nil
undo-boundary => nil
undo-start => nil
set-buffer-read-only | t => t
undo-more | 1 => ! buffer-read-only
set-buffer-read-only | nil => nil
undo-more | 2 => nil
buffer-size => 0"#;

#[test]
fn the_rows_of_read_only_texts_give_their_replies(rt: HostRuntime) {
    check_rows(&rt, rt.alloc(), ROWS);
}
