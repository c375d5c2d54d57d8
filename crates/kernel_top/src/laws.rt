//! What follows of recording and replaying.
ghost use Rattle.editor_model.specs.Values.{Script};
ghost use Rattle.plain_machine.specs.State.{Program};
ghost use Rattle.kernel_top.specs.RecordedRuns.{RecordedRunsReplay};

/// A session that was written whole, over a host that had started no child, is replayed to just the lines and the
/// dump of the recorded run; or to a front of them, where the sink fails or memory is wanting.
pub fn a_recorded_run_is_replayed()
    ensures { (program : Script → Program) → RecordedRunsReplay program }
{}
