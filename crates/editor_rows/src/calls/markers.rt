//! Markers.

use super::playing::check_rows;

const ROWS: &str = r#"# markers at a tie
insert | "abcd" => nil
copy-marker | 2 => #<marker at 2 in *scratch*>
copy-marker | 2 | t => #<marker (moves after insertion) at 2 in *scratch*>
goto-char | 2 => 2
insert | "xy" => nil
buffer-string => "axybcd"
point => 4
marker-position | marker:0 => 2
marker-position | marker:1 => 4

# an insertion before markers moves both types
insert | "abcd" => nil
copy-marker | 2 => #<marker at 2 in *scratch*>
copy-marker | 2 | t => #<marker (moves after insertion) at 2 in *scratch*>
goto-char | 2 => 2
insert-before-markers | "x" | "" | "y" => nil
marker-position | marker:0 => 4
marker-position | marker:1 => 4

# a deletion with markers at both ends, inside and behind
insert | "abcdef" => nil
copy-marker | 2 | t => #<marker (moves after insertion) at 2 in *scratch*>
copy-marker | 3 => #<marker at 3 in *scratch*>
copy-marker | 4 => #<marker at 4 in *scratch*>
copy-marker | 5 => #<marker at 5 in *scratch*>
delete-region | 4 | 2 => nil
marker-position | marker:0 => 2
marker-position | marker:1 => 2
marker-position | marker:2 => 2
marker-position | marker:3 => 3

# a new marker points nowhere, and its type is set by any flag
make-marker => #<marker in no buffer>
marker-position | marker:0 => nil
marker-buffer | marker:0 => nil
marker-insertion-type | marker:0 => nil
set-marker-insertion-type | marker:0 | 0 => t
marker-insertion-type | marker:0 => t
copy-marker | marker:0 => #<marker in no buffer>
copy-marker => #<marker in no buffer>
copy-marker | nil | t => #<marker (moves after insertion) in no buffer>
set-marker-insertion-type | marker:0 | nil => nil
set-marker | marker:0 | 5 => #<marker at 1 in *scratch*>
set-marker | marker:0 | nil => #<marker in no buffer>

# a marker is clipped to the whole buffer, narrowed or not
insert | "abcd" => nil
narrow-to-region | 2 | 3 => nil
copy-marker | -7 => #<marker at 1 in *scratch*>
copy-marker | 9 => #<marker at 5 in *scratch*>
point-marker => #<marker at 3 in *scratch*>
set-marker | marker:2 | 0 => #<marker at 1 in *scratch*>
set-marker | marker:2 | 6 => #<marker at 5 in *scratch*>
set-marker | marker:2 | 4 => #<marker at 4 in *scratch*>

# a marker counts as its number in another buffer
insert | "abcd" => nil
copy-marker | 4 | t => #<marker (moves after insertion) at 4 in *scratch*>
get-buffer-create | "w" => #<buffer w>
set-buffer | buffer:1 => #<buffer w>
insert | "xy" => nil
copy-marker | marker:0 => #<marker at 4 in *scratch*>
set-marker | marker:1 | marker:0 => #<marker at 3 in w>
set-marker | marker:1 | marker:0 | buffer:0 => #<marker at 4 in *scratch*>
set-marker | marker:1 | 2 | "w" => #<marker at 2 in w>
marker-buffer | marker:1 => #<buffer w>
goto-char | marker:0 => #<marker (moves after insertion) at 4 in *scratch*>
point => 3

# markers of a killed buffer point nowhere
get-buffer-create | "w" => #<buffer w>
make-marker => #<marker in no buffer>
set-marker | marker:0 | 1 | buffer:1 => #<marker at 1 in w>
kill-buffer | buffer:1 => t
marker-position | marker:0 => nil
marker-buffer | marker:0 => nil
set-marker | marker:0 | 1 | buffer:1 => ! buffer-killed
set-marker | marker:0 | nil | buffer:1 => ! buffer-killed
set-marker | marker:0 | nil | "w" => ! no-such-buffer"#;

#[test]
fn the_rows_of_markers_give_their_replies(rt: HostRuntime) {
    check_rows(&rt, rt.alloc(), ROWS);
}
