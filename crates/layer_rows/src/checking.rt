//! Comparing. Each comparison is a call, so a test that makes many of them branches at none. They tell nothing to
//! what comes behind them: where a later call rests on what is tested, an assert stands in the test itself.

use ek_types::Copied;
use std::fmt::Debug;
use std::process::Abort;

/// What was found is what was expected.
pub fn is<T: PartialEq + Debug + Drop>(rt: &impl Abort, found: T, expected: T) {
    assert_eq!(rt; found, expected);
}

pub fn holds(rt: &impl Abort, condition: bool) {
    assert!(rt; condition);
}

/// A copy of a value, which itself goes.
pub fn copied<T: Copied + Drop>(rt: &impl Abort, value: T) -> T {
    value.copy().expect(rt, "memory")
}
