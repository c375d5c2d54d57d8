//! What a kernel does besides, where the answers of children are told.
ghost use Rattle.std.specs.Prelude.{◌≡◌, true, IfOk, OnErr};
ghost use Rattle.plain_machine.specs.Forms.{popped};
ghost use Rattle.plain_machine.specs.Arguments.{is_running};
ghost use Rattle.plain_machine.specs.Refusals.{may_ask};
ghost use Rattle.host_link.specs.Meaning.{answer_of};
ghost use Rattle.kernel_steps.specs.Answers.{HearsAnswer, IsAllowed, IsKilled};

use crate::kernel::{Entry, Heard, Kernel};
use ek_types::Mem;
use host_link::Answer;

/// A kernel that takes the answers of children as they are told, in place of a host.
pub trait Stepped: Kernel {
    /// The newest of the kept places is kept no longer.
    fn forget_kept(&mut self)
        ensures { Self.state self.new ≡ popped (Self.state self.old) };

    /// Process `p` gave this answer about its output, or about its end once its output has ended. A refusal
    /// leaves all as it was.
    fn take_answer(&mut self, p: u32, answer: &Answer) -> Mem<Heard>
        requires asked { may_ask (Self.state self.old) ≡ true }
        requires allowed { IsAllowed (Self.state self.old) p (answer_of answer.now) }
        ensures ok { IfOk result (HearsAnswer (Self.state self.old) (Self.state self.new) p
            (answer_of answer.now)) }
        ensures err { OnErr result (Self.state self.new ≡ Self.state self.old) };

    /// Process `p`, which runs, was killed. A refusal leaves all as it was.
    fn take_kill(&mut self, p: u32) -> Mem<Entry>
        requires { is_running (Self.state self.old) p ≡ true }
        ensures ok { IfOk result (IsKilled (Self.state self.old) (Self.state self.new) p) }
        ensures err { OnErr result (Self.state self.new ≡ Self.state self.old) };
}
