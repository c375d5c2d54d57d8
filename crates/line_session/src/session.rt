//! The natives of a session.
ghost use Rattle.std.specs.Prelude.{◌≡◌, map, string_bytes, IfOk};
ghost use Rattle.ek_call.specs.Meaning.{script_of};
ghost use Rattle.line_session.specs.Script.{command_of, session_script};
ghost use Rattle.line_session.specs.Replies.{values_of};

use crate::command::command;
use crate::script::script;
use crate::{filter, sentinel};
use ek_call::{Replies, Script, Values};
use ek_types::Mem;
use handler_code::{Natives, Next};
use std::alloc::Global;

/// A session: a program that is run, and started again while it ends otherwise than with code 0. As `Natives` it has
/// the filter and the sentinel by which its script runs.
#[derive(Drop)]
pub struct LineSession {
    limit: u32,
    command: Values,
}

impl LineSession {
    /// The session that runs a program with these words, and restarts it at most `limit` times.
    pub fn new(alloc: Global, limit: u32, program: &str, args: &[String]) -> Mem<LineSession>
        ensures limit { IfOk result (λ s. s.limit ≡ limit) }
        ensures command { IfOk result (λ s. values_of s.command ≡
            command_of program.now (map string_bytes args.now)) }
    {
        Ok(LineSession {
            limit,
            command: command(alloc, program, args)?,
        })
    }

    /// The script that starts the program, sets both natives and waits 65,536 times.
    pub fn script(&self) -> Mem<Script>
        ensures { IfOk result (λ script. script_of script ≡
            session_script (values_of self.now.command)) }
    {
        script(&self.command)
    }
}

impl Natives for LineSession {
    ghost use Rattle.line_session.specs.Handlers.{session_names, session_does};
    ghost use Rattle.line_session.specs.Replies.{values_of};

    ghost names = { λ s. session_names };

    ghost does = { λ s i args past. session_does s.limit (values_of s.command) i args past };

    fn count(&self) -> u32 {
        2
    }

    fn name(&self, i: u32) -> &str {
        match i {
            0 => "session-filter",
            1 => "session-sentinel",
            _ => "",
        }
    }

    fn next(&self, i: u32, args: &Values, past: &Replies) -> Mem<Next> {
        match i {
            0 => filter::next_call(args, past.as_slice()),
            1 => sentinel::next_call(self.limit, &self.command, args, past.as_slice()),
            _ => Ok(Next::Done),
        }
    }
}
