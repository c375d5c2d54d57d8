//! Overlays.

use super::playing::check_rows;

const ROWS: &str = r#"# overlays at an insertion before markers
insert | "abcd" => nil
make-overlay | 1 | 3 => #<overlay from 1 to 3 in *scratch*>
make-overlay | 3 | 5 => #<overlay from 3 to 5 in *scratch*>
goto-char | 3 => 3
insert-before-markers | "xy" => nil
overlays-in | 1 | 7 => (#<overlay from 1 to 5 in *scratch*> #<overlay from 5 to 7 in *scratch*>)
point => 5

# empty overlays at an insertion
insert | "abcd" => nil
make-overlay | 3 | 3 | nil | nil | nil => #<overlay from 3 to 3 in *scratch*>
make-overlay | 3 | 3 | nil | nil | t => #<overlay from 3 to 3 in *scratch*>
make-overlay | 3 | 3 | nil | t | t => #<overlay from 3 to 3 in *scratch*>
make-overlay | 3 | 3 | nil | t | nil => #<overlay from 3 to 3 in *scratch*>
goto-char | 3 => 3
insert | "xy" => nil
overlay-end | overlay:0 => 3
overlay-start | overlay:1 => 3
overlay-end | overlay:1 => 5
overlay-start | overlay:2 => 5
overlay-start | overlay:3 => 3
overlay-end | overlay:3 => 3

# the ends of overlays by their advances, at an insertion at each end
insert | "abcdef" => nil
make-overlay | 5 | 3 => #<overlay from 3 to 5 in *scratch*>
make-overlay | 3 | 5 | buffer:0 | t | t => #<overlay from 3 to 5 in *scratch*>
goto-char | 5 => 5
insert | "x" => nil
goto-char | 3 => 3
insert | "y" => nil
overlay-start | overlay:0 => 3
overlay-end | overlay:0 => 6
overlay-start | overlay:1 => 4
overlay-end | overlay:1 => 7
delete-region | 1 | 8 => nil
overlays-in | 1 | 1 => (#<overlay from 1 to 1 in *scratch*> #<overlay from 1 to 1 in *scratch*>)

# evaporating overlays
insert | "abcd" => nil
make-overlay | 2 | 4 => #<overlay from 2 to 4 in *scratch*>
overlay-put | overlay:0 | evaporate | t => t
make-overlay | 1 | 3 => #<overlay from 1 to 3 in *scratch*>
overlay-put | overlay:1 | evaporate | 0 => 0
make-overlay | 2 | 4 => #<overlay from 2 to 4 in *scratch*>
overlay-put | overlay:2 | evaporate | nil => nil
delete-region | 2 | 4 => nil
overlay-start | overlay:0 => nil
overlay-buffer | overlay:0 => nil
overlay-properties | overlay:0 => (evaporate t)
overlays-in | 1 | 3 => (#<overlay from 1 to 2 in *scratch*> #<overlay from 2 to 2 in *scratch*>)
overlay-put | overlay:2 | evaporate | bold => bold
overlay-buffer | overlay:2 => nil
move-overlay | overlay:1 | 2 | 2 => #<overlay in no buffer>
move-overlay | overlay:1 | 1 | 2 => #<overlay from 1 to 2 in *scratch*>

# the overlay that wins
insert | "abcd" / 0 4 face "plain" => nil
make-overlay | 1 | 5 => #<overlay from 1 to 5 in *scratch*>
overlay-put | overlay:0 | face | bold => bold
make-overlay | 2 | 4 => #<overlay from 2 to 4 in *scratch*>
overlay-put | overlay:1 | face | italic => italic
get-char-property | 2 | face => italic
get-char-property | 4 | face => bold
overlay-put | overlay:0 | priority | 1 => 1
get-char-property | 2 | face => bold
get-char-property | 5 | face => nil
overlay-put | overlay:0 | priority | "9" => "9"
get-char-property | 2 | face => italic
overlay-put | overlay:1 | priority | -1 => -1
get-char-property | 2 | face => bold
overlay-put | overlay:0 | face | nil => nil
get-char-property | 4 | face => "plain"

# of equal priority the larger start wins, then the smaller end, then the higher number
insert | "abcdef" => nil
make-overlay | 1 | 4 => #<overlay from 1 to 4 in *scratch*>
overlay-put | overlay:0 | face | 0 => 0
make-overlay | 2 | 6 => #<overlay from 2 to 6 in *scratch*>
overlay-put | overlay:1 | face | 1 => 1
get-char-property | 3 | face => 1
make-overlay | 2 | 5 => #<overlay from 2 to 5 in *scratch*>
overlay-put | overlay:2 | face | 2 => 2
get-char-property | 3 | face => 2
make-overlay | 2 | 5 => #<overlay from 2 to 5 in *scratch*>
overlay-put | overlay:3 | face | 3 => 3
get-char-property | 3 | face => 3
move-overlay | overlay:3 | 1 | 2 => #<overlay from 1 to 2 in *scratch*>
get-char-property | 3 | face => 2
make-overlay | 3 | 3 => #<overlay from 3 to 3 in *scratch*>
overlay-put | overlay:4 | face | 4 => 4
get-char-property | 3 | face => 2

# overlays at a place and in a region, and where overlays begin or end
insert | "abc" => nil
make-overlay | 2 | 2 => #<overlay from 2 to 2 in *scratch*>
make-overlay | 1 | 3 => #<overlay from 1 to 3 in *scratch*>
make-overlay | 4 | 4 => #<overlay from 4 to 4 in *scratch*>
overlays-in | 2 | 4 => (#<overlay from 2 to 2 in *scratch*> #<overlay from 1 to 3 in *scratch*> #<overlay from 4 to 4 in *scratch*>)
overlays-at | 2 => (#<overlay from 1 to 3 in *scratch*>)
next-overlay-change | 1 => 2
previous-overlay-change | 4 => 3
previous-overlay-change | 1 => 1
next-overlay-change | 3 => 4
next-overlay-change | 9 => 4
overlays-in | 3 | 2 => (#<overlay from 2 to 2 in *scratch*> #<overlay from 1 to 3 in *scratch*>)
overlays-in | 3 | 4 => (#<overlay from 4 to 4 in *scratch*>)
overlays-in | 1 | 1 => (#<overlay from 1 to 3 in *scratch*>)
overlays-in | 3 | 3 => nil
overlays-at | 3 => nil
overlays-at | 0 => nil

# an empty overlay at the end of a region counts at the end of the accessible portion
insert | "abcd" => nil
make-overlay | 3 | 3 => #<overlay from 3 to 3 in *scratch*>
overlays-in | 1 | 3 => nil
narrow-to-region | 1 | 3 => nil
overlays-in | 1 | 3 => (#<overlay from 3 to 3 in *scratch*>)
next-overlay-change | 1 => 3
previous-overlay-change | 4 => 3
previous-overlay-change | 3 => 1

# an overlay is clipped to the whole buffer, and moves between buffers
insert | "abcd" => nil
narrow-to-region | 2 | 3 => nil
get-buffer-create | "w" => #<buffer w>
make-overlay | 9 | -9 => #<overlay from 1 to 5 in *scratch*>
move-overlay | overlay:0 | 2 | 9 | "w" => #<overlay from 1 to 1 in w>
overlay-buffer | overlay:0 => #<buffer w>
overlays-in | 1 | 5 => nil
move-overlay | overlay:0 | 2 | 3 => #<overlay from 1 to 1 in w>
delete-overlay | overlay:0 => nil
move-overlay | overlay:0 | 4 | 3 => #<overlay from 3 to 4 in *scratch*>

# an overlay in no buffer
make-overlay | 1 | 1 => #<overlay from 1 to 1 in *scratch*>
overlay-put | overlay:0 | face | bold => bold
delete-overlay | overlay:0 => nil
delete-overlay | overlay:0 => nil
overlay-start | overlay:0 => nil
overlay-end | overlay:0 => nil
overlay-buffer | overlay:0 => nil
overlay-get | overlay:0 | face => bold
overlay-put | overlay:0 | evaporate | t => t
overlay-properties | overlay:0 => (evaporate t face bold)

# properties of an overlay, and a string that loses its own
make-overlay | 1 | 1 => #<overlay from 1 to 1 in *scratch*>
overlay-get | overlay:0 | face => nil
overlay-properties | overlay:0 => nil
overlay-put | overlay:0 | face | "x" / 0 1 face bold => #("x" 0 1 (face bold))
overlay-get | overlay:0 | face => "x"
overlay-put | overlay:0 | priority | 1 => 1
overlay-properties | overlay:0 => (priority 1 face "x")
overlay-put | overlay:0 | face | nil => nil
overlay-properties | overlay:0 => (priority 1)

# overlays of a killed buffer are in none
get-buffer-create | "w" => #<buffer w>
make-overlay | 1 | 1 | "w" => #<overlay from 1 to 1 in w>
kill-buffer | buffer:1 => t
overlay-buffer | overlay:0 => nil
move-overlay | overlay:0 | 1 | 1 | buffer:1 => ! buffer-killed
move-overlay | overlay:0 | 1 | 1 => #<overlay from 1 to 1 in *scratch*>"#;

#[test]
fn the_rows_of_overlays_give_their_replies(rt: HostRuntime) {
    check_rows(&rt, rt.alloc(), ROWS);
}
