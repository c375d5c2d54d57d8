//! Comparing. Each comparison is a call, so a test that makes many of them branches at none. `is` and `holds` tell nothing
//! to what comes behind them. Where a later call rests on what is tested, `below`, `inside` or `at_most` tests it.

ghost use Rattle.std.specs.Prelude.{◌<◌, ◌≤◌};

use std::fmt::Debug;
use std::process::Abort;

/// What was found is what was expected.
pub fn is<T: PartialEq + Debug + Drop>(rt: &impl Abort, found: T, expected: T) {
    assert_eq!(rt; found, expected);
}

pub fn holds(rt: &impl Abort, condition: bool) {
    assert!(rt; condition);
}

/// A number is below a limit.
pub fn below(rt: &impl Abort, number: u32, limit: u32)
    ensures { number < limit }
{
    assert!(rt; number < limit);
}

/// A place is inside something of this size.
pub fn inside(rt: &impl Abort, place: usize, size: usize)
    ensures { place < size }
{
    assert!(rt; place < size);
}

/// A place, or a count, is at most another.
pub fn at_most(rt: &impl Abort, place: usize, most: usize)
    ensures { place ≤ most }
{
    assert!(rt; place <= most);
}
