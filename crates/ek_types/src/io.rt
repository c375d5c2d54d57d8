//! Where bytes come from and where they go.
ghost use Rattle.std.specs.Prelude.{◌≡◌, ◌<◌, ◌≤◌, length, IsTrue};
ghost use Rattle.ek_types.specs.Io.{SourceState, SinkState, HasCause, Takes, Puts, StaysUnfailing};
ghost use Rattle.ek_types.specs.Io.{StaysRoomy};

/// What a read took.
#[derive(Clone, Copy, Debug, PartialEq, Eq)]
pub enum Took {
    /// So many bytes stand at the front of the room given, at least one.
    Bytes(usize),
    /// Nothing is left.
    End,
    /// The call failed, and the source's count of faults rose in it.
    Failed,
}

/// What a write took.
#[derive(Clone, Copy, Debug, PartialEq, Eq)]
pub enum Wrote {
    /// So many bytes of the front were taken, at least one.
    Bytes(usize),
    /// The call failed, and the sink's count of faults rose in it.
    Failed,
}

/// A write failed.
#[derive(Clone, Copy, Debug, PartialEq, Eq)]
pub struct SinkFault;

/// Where bytes come from. A source means the bytes that are left, where it tells, and a count of faults that never
/// falls and stays at 2^64 - 1 once it stands there.
pub trait Source {
    /// What is left, the count of faults, and whether it is known that no call fails from here on.
    ghost state: { Self → SourceState };

    /// Moves the first bytes of what is left to the front of `into`, which isn't empty. `End` and `Failed` leave what is
    /// left.
    fn read(&mut self, into: &mut [u8]) -> Took
        requires { 0 < length into.old }
        ensures bytes { Takes (state self.old).left (state self.new).left into.new result }
        ensures cause { HasCause (state self.old).faults (state self.new).faults
            (result ≡ Took.Failed) }
        ensures unfailing { IsTrue (state self.old).unfailing →
            StaysUnfailing (state self.old) (state self.new) result };
}

/// Where bytes go. A sink means the bytes that it holds, where it tells, and a count of faults that never falls and
/// stays at 2^64 - 1 once it stands there.
pub trait Sink {
    /// What it holds, the count of faults, and how many more bytes it is known to take with no call failing.
    ghost state: { Self → SinkState };

    /// Takes the first bytes of `from`, which isn't empty, behind what it holds. `Failed` leaves what it holds.
    fn write(&mut self, from: &[u8]) -> Wrote
        requires { 0 < length from.now }
        ensures bytes { Puts (state self.old).held (state self.new).held from.now result }
        ensures cause { HasCause (state self.old).faults (state self.new).faults
            (result ≡ Wrote.Failed) }
        ensures roomy { length from.now ≤ (state self.old).room →
            StaysRoomy (state self.old) (state self.new) result };
}
