//! Comparing. Each comparison is a call, so a test that makes many of them branches at none. They tell nothing to
//! what comes behind them: where a later call rests on what is tested, an assert stands in the test itself.

use super::playing::Ran;
use kernel_top::Status;
use std::fmt::Debug;
use std::process::Abort;

/// What was found is what was expected.
pub fn is<T: PartialEq + Debug + Drop>(rt: &impl Abort, found: T, expected: T) {
    assert_eq!(rt; found, expected);
}

pub fn holds(rt: &impl Abort, condition: bool) {
    assert!(rt; condition);
}

/// What was found is what was expected, of what a row shows.
pub fn is_for<T: PartialEq + Debug + Drop>(rt: &impl Abort, shows: &str, found: T, expected: T) {
    assert_eq!(rt; found, expected, "{shows}");
}

pub fn holds_for(rt: &impl Abort, shows: &str, condition: bool) {
    assert!(rt; condition, "{shows}");
}

/// How a run ended, and what it wrote.
pub fn ends_with(rt: &impl Abort, shows: &str, ran: &Ran, status: Status, written: &[u8]) {
    is_for(rt, shows, ran.status, status);
    is_for(rt, shows, ran.written.as_slice(), written);
}

/// How a run ended, what it wrote and what it asked.
pub fn comes_to(
    rt: &impl Abort,
    shows: &str,
    ran: &Ran,
    status: Status,
    written: &[u8],
    exchanges: &[u8],
) {
    ends_with(rt, shows, ran, status, written);
    is_for(rt, shows, ran.exchanges.as_slice(), exchanges);
}

/// A run that ended in this way before anything was written or asked.
pub fn is_refused(rt: &impl Abort, shows: &str, ran: &Ran, status: Status) {
    is_for(rt, shows, ran.status, status);
    is_for(rt, shows, ran.written.len(), 0);
    is_for(rt, shows, ran.exchanges.len(), 0);
    is_for(rt, shows, ran.told.len(), 0);
}
