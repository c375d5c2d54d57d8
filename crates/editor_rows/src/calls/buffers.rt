//! Buffers.

use super::playing::check_rows;

const ROWS: &str = r#"# buffers are found, made, and made current
current-buffer => #<buffer *scratch*>
get-buffer | "w" => nil
get-buffer-create | "w" => #<buffer w>
get-buffer-create | "w" => #<buffer w>
get-buffer-create | buffer:1 => #<buffer w>
current-buffer => #<buffer *scratch*>
set-buffer | "w" => #<buffer w>
current-buffer => #<buffer w>
buffer-list => (#<buffer *scratch*> #<buffer w>)
get-buffer | "" => nil
set-buffer | "" => ! no-such-buffer
get-buffer-create | "" => ! wrong-type-argument

# the first name that is free
generate-new-buffer | "w" => #<buffer w>
generate-new-buffer | "w" => #<buffer w<2>>
generate-new-buffer | "w" => #<buffer w<3>>
set-buffer | "w<2>" => #<buffer w<2>>
rename-buffer | "w" => "w<2>"
rename-buffer | "w<2>" => "w<2>"
rename-buffer | "v" => "v"
generate-new-buffer | "w" => #<buffer w<2>>
buffer-name => "v"
buffer-name | buffer:3 => "w<3>"
buffer-list => (#<buffer *scratch*> #<buffer w> #<buffer v> #<buffer w<3>> #<buffer w<2>>)

# the modified flag
buffer-modified-p => nil
insert | "" => nil
buffer-modified-p => nil
insert | "a" => nil
buffer-modified-p | "*scratch*" => t
set-buffer-modified-p | nil => nil
buffer-modified-p | buffer:0 => nil
set-buffer-modified-p | 0 => t
buffer-modified-p | nil => t

# a killed buffer
get-buffer-create | "w" => #<buffer w>
buffer-live-p | buffer:1 => t
kill-buffer | buffer:1 => t
buffer-live-p | buffer:1 => nil
buffer-live-p | "w" => nil
get-buffer | "w" => nil
get-buffer | buffer:1 => #<killed buffer>
get-buffer-create | buffer:1 => #<killed buffer>
buffer-name | buffer:1 => nil
get-buffer-create | "w" => #<buffer w>
buffer-name | buffer:2 => "w"
buffer-live-p | buffer:1 => nil

# what of a killed buffer is refused
get-buffer-create | "w" => #<buffer w>
kill-buffer | buffer:1 => t
make-marker => #<marker in no buffer>
make-overlay | 1 | 1 => #<overlay from 1 to 1 in *scratch*>
set-buffer | buffer:1 => ! buffer-killed
buffer-modified-p | buffer:1 => ! buffer-killed
buffer-size | buffer:1 => ! buffer-killed
insert-buffer-substring | buffer:1 => ! buffer-killed
insert-buffer-substring | buffer:1 | 9 | 9 => ! buffer-killed
set-marker | marker:0 | 1 | buffer:1 => ! buffer-killed
make-overlay | 1 | 1 | buffer:1 => ! buffer-killed
move-overlay | overlay:0 | 1 | 1 | buffer:1 => ! buffer-killed
set-buffer | "w" => ! no-such-buffer
buffer-modified-p | "w" => ! no-such-buffer
buffer-size | "w" => ! no-such-buffer
insert-buffer-substring | "w" => ! no-such-buffer
set-marker | marker:0 | 1 | "w" => ! no-such-buffer
make-overlay | 1 | 1 | "w" => ! no-such-buffer
move-overlay | overlay:0 | 1 | 1 | "w" => ! no-such-buffer"#;

#[test]
fn the_rows_of_buffers_give_their_replies(rt: HostRuntime) {
    check_rows(&rt, rt.alloc(), ROWS);
}
