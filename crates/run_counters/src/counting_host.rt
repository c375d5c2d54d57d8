//! A host that counts what is asked of another one.
ghost use Rattle.std.specs.Prelude.{◌≡◌, ◌+◌, ◌%◌, ◌^◌};
ghost use Rattle.run_counters.specs.HandingOn.{HandsOn};

use ek_types::Mem;
use host_link::{Ended, Exchanges, Got, Host, KillAnswer, SendAnswer, Spawned};

/// Hands each call on to another host, and counts the exchanges, modulo 2^64. A call that was refused for want of memory
/// is none.
#[derive(Drop)]
pub struct CountingHost<'a, H> {
    inner: &'a mut H,
    exchanges: u64,
}

impl<'a, H: Host> CountingHost<'a, H> {
    /// Such a host over the one given, which is as it was. It has counted none.
    pub fn new(inner: &'a mut H) -> CountingHost<'a, H>
        ensures same_reference { result.inner.ghost_name ≡ inner.entry.ghost_name }
        ensures inner { result.inner.now ≡ inner.old }
        ensures fresh { result.exchanges ≡ 0 }
    {
        CountingHost {
            inner,
            exchanges: 0,
        }
    }

    /// How many exchanges there were, modulo 2^64.
    pub fn exchanges(&self) -> u64
        ensures { result ≡ self.now.exchanges }
    {
        self.exchanges
    }

    fn count(&mut self)
        ensures count { self.new.exchanges ≡ (self.old.exchanges + 1) % 2 ^ 64 }
        ensures inner { self.new.inner ≡ self.old.inner }
    {
        self.exchanges = self.exchanges.wrapping_add(1);
    }
}

impl<H: Host> Host for CountingHost<'_, H> {
    ghost state = { λ h. H.state h.inner.now };

    ghost made = { HandsOn H.made };

    fn spawn(&mut self, program: &str, args: &[String]) -> Mem<Spawned> {
        let spawned = self.inner.spawn(program, args)?;
        self.count();
        Ok(spawned)
    }

    fn read(&mut self, child: u32, into: &mut [u8]) -> Mem<Got> {
        let got = self.inner.read(child, into)?;
        self.count();
        Ok(got)
    }

    fn end(&mut self, child: u32) -> Mem<Ended> {
        let ended = self.inner.end(child)?;
        self.count();
        Ok(ended)
    }

    fn send(&mut self, child: u32, bytes: &[u8]) -> Mem<SendAnswer> {
        let sent = self.inner.send(child, bytes)?;
        self.count();
        Ok(sent)
    }

    fn close(&mut self, child: u32) -> Mem<()> {
        self.inner.close(child)?;
        self.count();
        Ok(())
    }

    fn told(&self) -> Option<&Exchanges> {
        self.inner.told()
    }

    fn kill(&mut self, child: u32) -> KillAnswer {
        let killed = self.inner.kill(child);
        self.count();
        killed
    }
}
