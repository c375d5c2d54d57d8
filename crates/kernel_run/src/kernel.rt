//! A kernel on which a script runs.
ghost use Rattle.std.specs.Prelude.{◌≡◌, ◌*◌, IfOk};
ghost use Rattle.plain_machine.specs.State.{new_state};
ghost use Rattle.buffer_table.specs.Kept.{cells_in, editor_of};
ghost use Rattle.kernel_run.specs.Meaning.{state_of};

use buffer_table::Editor;
use ek_types::Mem;
use kernel_state::KernelState;
use process_table::Processes;
use std::alloc::Global;

/// A kernel: all that a run keeps. It stands for the state of the plain machine (`state_of`), where of all bytes read
/// from a process it keeps what may still become a character.
pub struct Kernel {
    pub(crate) state: KernelState,
}

impl Kernel {
    /// A kernel before any script: the one buffer `*scratch*`, empty and current, and nothing else.
    pub fn new(alloc: Global) -> Mem<Kernel>
        ensures { IfOk result (λ k. state_of k ≡ new_state) }
    {
        let state = KernelState::new(alloc)?;
        Ok(Kernel { state })
    }

    /// All buffers, with what stands beside their texts.
    pub fn editor(&self) -> &Editor
        ensures { editor_of result.now ≡ (state_of self.now).editor }
    {
        self.state.editor()
    }

    /// All processes.
    pub fn processes(&self) -> &Processes
        ensures { result.now ≡ (state_of self.now).processes }
    {
        self.state.processes()
    }

    /// How many blocks of 256 cells the texts of the live buffers have: their characters and the spare beside them.
    pub fn pool_live(&self) -> usize
        ensures account { 256 * result ≡ cells_in self.now.state.editor.pool self.now.state.editor.buffers }
    {
        self.state.pool_live()
    }

    /// Lets all go, and gives the blocks of all texts back.
    pub fn close(self) {
        let Kernel { state } = self;
        state.close();
    }
}
