//! Text properties, and what insertions inherit.

use super::playing::check_rows;

const ROWS: &str = r#"# where properties change
insert | "abcd" / 1 3 face bold => nil
next-property-change | 1 => 2
next-property-change | 2 => 4
next-property-change | 4 => nil
next-property-change | 2 | 3 => 3
add-text-properties | 2 | 4 | [face bold] => nil
text-property-not-all | 1 | 5 | face | bold => 1

# changes of one property, and the limits of a search
insert | "abcdef" / 1 5 face bold / 2 3 face bold priority 7 => nil
next-property-change | 2 => 3
next-single-property-change | 2 | face => 6
next-single-property-change | 2 | face | 4 => 4
next-single-property-change | 2 | face | 6 => 6
next-single-property-change | 2 | face | 1 => 1
next-single-property-change | 6 | face | 99 => 99
next-single-property-change | 7 | face => nil
previous-property-change | 7 => 6
previous-property-change | 6 => 4
previous-property-change | 2 => nil
previous-property-change | 6 | 5 => 5
previous-single-property-change | 6 | face => 2
previous-single-property-change | 2 | face | -5 => -5
previous-single-property-change | 1 | face => nil

# a search stays within the narrowing
insert | "abcdef" / 1 5 face bold => nil
narrow-to-region | 2 | 6 => nil
next-property-change | 2 => nil
previous-property-change | 6 => nil
get-text-property | 5 | face => bold
get-text-property | 6 | face => nil
text-properties-at | 6 => nil
get-text-property | 1 | face => ! args-out-of-range

# a change answers whether something was to change
insert | "abcd" => nil
add-text-properties | 1 | 3 | [face bold] => t
add-text-properties | 1 | 3 | [face bold] => nil
add-text-properties | 3 | 1 | [face nil priority 1] => t
buffer-string => #("abcd" 0 2 (priority 1))
remove-text-properties | 2 | 5 | [priority bold] => t
remove-text-properties | 2 | 5 | [priority nil] => nil
set-text-properties | 1 | 3 | [face italic] => t
set-text-properties | 1 | 3 | [face italic] => nil
buffer-string => #("abcd" 0 2 (face italic))
set-text-properties | 2 | 5 | nil => t
add-text-properties | 1 | 5 | nil => nil
put-text-property | 1 | 2 | face | nil => nil
buffer-string => "abcd"
buffer-modified-p => t

# each kind of value, in the order of the names
insert | "a" => nil
put-text-property | 1 | 2 | face | [bold italic] => nil
put-text-property | 1 | 2 | priority | -3 => nil
put-text-property | 1 | 2 | before-string | "x" / 0 1 face bold => nil
put-text-property | 1 | 2 | read-only | t => nil
text-properties-at | 1 => (priority -3 read-only t before-string "x" face (bold italic))
get-text-property | 1 | face => (bold italic)
get-text-property | 1 | before-string => "x"
text-property-any | 1 | 2 | before-string | "x" => 1
text-property-any | 1 | 2 | face | [italic bold] => nil

# the first position that has a value, and the first that hasn't
insert | "abcd" / 1 3 face bold => nil
text-property-any | 1 | 5 | face | bold => 2
text-property-any | 5 | 3 | face | bold => 3
text-property-any | 4 | 5 | face | bold => nil
text-property-any | 2 | 5 | face | nil => 4
text-property-not-all | 2 | 5 | face | bold => 4
text-property-not-all | 2 | 4 | face | bold => nil
text-property-not-all | 2 | 2 | face | bold => nil
text-property-not-all | 2 | 4 | face | nil => 2

# property lists that are none
add-text-properties | 1 | 1 | [face] => ! wrong-type-argument
add-text-properties | 1 | 1 | [face bold face bold] => ! wrong-type-argument
add-text-properties | 1 | 1 | [1 bold] => ! wrong-type-argument
add-text-properties | 1 | 1 | [face buffer:0] => ! wrong-type-argument
remove-text-properties | 1 | 1 | [t bold] => ! wrong-type-argument
set-text-properties | 1 | 1 | [face marker:0] => ! wrong-type-argument
add-text-properties | 1 | 1 | [face (bold)] => nil

# what an insertion inherits
insert | "ab" / 0 1 face bold rear-nonsticky (face) / 1 2 face italic front-sticky t => nil
goto-char | 2 => 2
insert-and-inherit | "x" => nil
buffer-string => #("axb" 0 1 (rear-nonsticky (face) face bold) 1 2 (face italic) 2 3 (front-sticky t face italic))

# an insertion inherits from the character before, unless it has a value of its own
insert | "ab" / 0 1 face bold priority 1 / 1 2 face italic => nil
goto-char | 2 => 2
insert-before-markers-and-inherit | "xy" / 1 2 face italic => nil
buffer-string => #("axyb" 0 2 (priority 1 face bold) 2 3 (priority 1 face italic) 3 4 (face italic))
insert | "z" => nil
get-text-property | 4 | priority => nil

# a character that is rear-nonsticky offers nothing, nor does one behind without front-sticky
insert | "ab" / 0 1 face bold rear-nonsticky t / 1 2 face italic => nil
goto-char | 2 => 2
insert-and-inherit | "x" => nil
text-properties-at | 2 => nil
put-text-property | 3 | 4 | front-sticky | [priority] => nil
insert-and-inherit | "y" => nil
text-properties-at | 3 => nil
put-text-property | 4 | 5 | front-sticky | [face] => nil
insert-and-inherit | "z" => nil
text-properties-at | 4 => (face italic)

# where both offer a property the character before wins, and a number makes nothing sticky
insert | "ab" / 0 1 face bold / 1 2 face italic front-sticky t priority 2 => nil
goto-char | 2 => 2
insert-and-inherit | "x" => nil
text-properties-at | 2 => (priority 2 face bold)
put-text-property | 2 | 3 | rear-nonsticky | 1 => nil
put-text-property | 3 | 4 | front-sticky | 1 => nil
insert-and-inherit | "y" => nil
text-properties-at | 3 => (priority 2 face bold)

# nothing is inherited from outside the narrowing
insert | "abc" / 0 3 face bold front-sticky t => nil
narrow-to-region | 2 | 2 => nil
insert-and-inherit | "x" => nil
text-properties-at | 2 => nil
put-text-property | 2 | 3 | face | italic => nil
insert-and-inherit | "y" => nil
buffer-string => #("xy" 0 2 (face italic))"#;

#[test]
fn the_rows_of_properties_give_their_replies(rt: HostRuntime) {
    check_rows(&rt, rt.alloc(), ROWS);
}
