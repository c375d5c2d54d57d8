//! The drill: a script and a child that the program brings along to measure itself.
ghost use Rattle.std.specs.Prelude.{◌≡◌, IfOk};
ghost use Rattle.plain_machine.specs.Drill.{drill_script};
ghost use Rattle.ek_call.specs.Meaning.{script_of};
ghost use Rattle.host_link.specs.Cursors.{whole_play};
ghost use Rattle.line_drill.specs.DrillHost.{drill_host, host_over};

use crate::counted_reads::waits;
use crate::drill_child::child;
use crate::drill_script::script;
use ek_call::Script;
use ek_types::Mem;
use host_link::{MemoryHost, Play};
use std::alloc::Global;

/// A new host with this one child, of which no call fails.
fn host(alloc: Global, child: Play) -> Mem<MemoryHost>
    ensures { IfOk result (λ host. host ≡ host_over (whole_play child)) }
{
    let mut plays = Vec::new(alloc);
    plays.push(child)?;
    Ok(MemoryHost::new(plays, Vec::new(alloc)))
}

/// The script of the drill of so many lines, without its host.
pub fn script_of_drill(alloc: Global, lines: u32) -> Mem<Script>
    ensures { IfOk result (λ script. script_of script ≡ drill_script lines) }
{
    script(alloc, waits(lines))
}

/// A new host with the one child of the drill of so many lines, of which no call fails.
pub fn host_of_drill(alloc: Global, lines: u32) -> Mem<MemoryHost>
    ensures { IfOk result (λ host. host ≡ drill_host lines) }
{
    host(alloc, child(alloc, lines)?)
}

/// The script of the drill of so many lines, and a new host with its one child, of which no call fails.
pub fn drill(alloc: Global, lines: u32) -> Mem<(Script, MemoryHost)>
    ensures script { IfOk result (λ made. script_of made.0 ≡ drill_script lines) }
    ensures host { IfOk result (λ made. made.1 ≡ drill_host lines) }
{
    let script = script_of_drill(alloc, lines)?;
    let host = host_of_drill(alloc, lines)?;
    Ok((script, host))
}
