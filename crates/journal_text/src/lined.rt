//! A host that says of each exchange that it has a line.
ghost use Rattle.std.specs.Prelude.{◌≡◌};
ghost use Rattle.journal_text.specs.Lined.{HandsLine};

use ek_types::Mem;
use host_link::{Ended, Exchanges, Got, Host, KillAnswer, SendAnswer, Spawned};

/// Hands each call on to another host. It says of each exchange, besides what that host says, that it has a line in a
/// journal. Left out are a program without a name or with the byte 0 in its name or words, a send of no bytes, and a
/// read with room for more than 4,096 bytes.
#[derive(Drop)]
pub struct LinedHost<'a, H> {
    inner: &'a mut H,
}

impl<'a, H: Host> LinedHost<'a, H> {
    /// Such a host over the one given, which is as it was.
    pub fn new(inner: &'a mut H) -> LinedHost<'a, H>
        ensures same_reference { result.inner.ghost_name ≡ inner.entry.ghost_name }
        ensures inner { result.inner.now ≡ inner.old }
    {
        LinedHost { inner }
    }
}

impl<H: Host> Host for LinedHost<'_, H> {
    ghost state = { λ h. H.state h.inner.now };

    ghost made = { HandsLine H.state H.made };

    fn spawn(&mut self, program: &str, args: &[String]) -> Mem<Spawned> {
        self.inner.spawn(program, args)
    }

    fn read(&mut self, child: u32, into: &mut [u8]) -> Mem<Got> {
        self.inner.read(child, into)
    }

    fn end(&mut self, child: u32) -> Mem<Ended> {
        self.inner.end(child)
    }

    fn send(&mut self, child: u32, bytes: &[u8]) -> Mem<SendAnswer> {
        self.inner.send(child, bytes)
    }

    fn close(&mut self, child: u32) -> Mem<()> {
        self.inner.close(child)
    }

    fn told(&self) -> Option<&Exchanges> {
        self.inner.told()
    }

    fn kill(&mut self, child: u32) -> KillAnswer {
        self.inner.kill(child)
    }
}
