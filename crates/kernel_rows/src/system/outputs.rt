//! When lines are kept back, and when they are handed on.

use crate::comparing::{holds, is};
use std::cell::Cell;
use std::io::{self, Error, ErrorKind, Write};
use std::test::Fail;
use system_host::{Hand, Output};

/// Counts its calls, and fails from one of them on.
#[derive(Drop)]
struct Counted<'a> {
    calls: &'a Cell<u32>,
    fails_from: u32,
}

impl Write for Counted<'_> {
    fn write(&mut self, from: &[u8]) -> io::Result<usize> {
        let calls = self.calls.get().saturating_add(1);
        self.calls.set(calls);
        if calls >= self.fails_from {
            return Err(Error::from(ErrorKind::StorageFull));
        }
        Ok(from.len())
    }

    fn flush(&mut self) -> io::Result<()> {
        Ok(())
    }
}

fn output<'a>(
    rt: &HostRuntime,
    calls: &'a Cell<u32>,
    fails_from: u32,
) -> io::Result<Output<Counted<'a>>> {
    Output::new(rt.alloc(), Counted { calls, fails_from })
}

#[test]
fn lines_gather_until_they_are_handed_on(rt: HostRuntime) -> Result<(), Fail> {
    let calls = Cell::new(0);
    let output = output(&rt, &calls, 9)?;
    let mut hand = Hand { output: &output };
    for _ in 0..100 {
        hand.write_all(b"= nil\n")?;
    }
    is(&rt, calls.get(), 0);
    output.hand_on()?;
    is(&rt, calls.get(), 1);
    output.hand_on()?;
    is(&rt, calls.get(), 1);
    Ok(())
}

#[test]
fn lines_go_out_where_there_is_no_more_room(rt: HostRuntime) -> Result<(), Fail> {
    let calls = Cell::new(0);
    let output = output(&rt, &calls, 9)?;
    let mut hand = Hand { output: &output };
    for _ in 0..8193 {
        hand.write_all(b"= (a b)\n")?;
    }
    is(&rt, calls.get(), 1);
    hand.flush()?;
    is(&rt, calls.get(), 2);
    Ok(())
}

#[test]
fn nothing_is_written_behind_a_call_that_failed(rt: HostRuntime) -> Result<(), Fail> {
    let calls = Cell::new(0);
    let output = output(&rt, &calls, 1)?;
    let mut hand = Hand { output: &output };
    hand.write_all(b"= nil\n")?;
    holds(&rt, output.hand_on().is_err());
    holds(&rt, hand.write(b"= nil\n").is_err());
    holds(&rt, output.hand_on().is_err());
    drop(output);
    is(&rt, calls.get(), 1);
    Ok(())
}
