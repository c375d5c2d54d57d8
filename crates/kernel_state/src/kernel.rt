//! What a run keeps.
ghost use Rattle.std.specs.Prelude.{◌≡◌, ◌*◌, IfOk};
ghost use Rattle.plain_machine.specs.State.{new_state};
ghost use Rattle.buffer_table.specs.Kept.{cells_in, editor_of};
ghost use Rattle.kernel_state.specs.Meaning.{state_of};

use crate::place::StartPlace;
use crate::scopes::Scopes;
use buffer_table::Editor;
use change_hooks::Hooks;
use ek_call::Values;
use ek_types::{ListOf, Mem};
use process_table::Processes;
use std::alloc::Global;

/// All that a run keeps: buffers with what stands beside them, hook functions, processes, the parameters of running
/// handlers, and counts. It stands for the state of the plain machine (`state_of`), where of all bytes read from a
/// process it keeps what may still become a character.
pub struct KernelState {
    pub(crate) editor: Editor,
    pub(crate) hooks: Hooks,
    pub(crate) processes: Processes,
    pub(crate) scopes: Scopes,
    /// How many handlers are running.
    pub(crate) depth: u32,
    /// How many exchanges were made but for kills.
    pub(crate) asked: u32,
    /// How many bytes were sent.
    pub(crate) sent: u32,
    /// Room for the process that is being started.
    pub(crate) place: Option<StartPlace>,
    /// Room for the arguments of the next call.
    pub(crate) room: Values,
    pub(crate) alloc: Global,
}

impl KernelState {
    /// A kernel before any script: the one buffer `*scratch*`, empty and current, and nothing else.
    pub fn new(alloc: Global) -> Mem<KernelState>
        ensures { IfOk result (λ k. state_of k ≡ new_state) }
    {
        let hooks = Hooks::new(alloc)?;
        let editor = Editor::new(alloc)?;
        Ok(KernelState {
            editor,
            hooks,
            processes: Processes::new(alloc),
            scopes: Scopes::new(alloc),
            depth: 0,
            asked: 0,
            sent: 0,
            place: None,
            room: ListOf::new(alloc),
            alloc,
        })
    }

    /// Where memory is taken from.
    pub fn alloc(&self) -> Global {
        self.alloc
    }

    /// All buffers, with what stands beside their texts.
    pub fn editor(&self) -> &Editor
        ensures { editor_of result.now ≡ (state_of self.now).editor }
    {
        &self.editor
    }

    /// All processes.
    pub fn processes(&self) -> &Processes
        ensures { result.now ≡ (state_of self.now).processes }
    {
        &self.processes
    }

    /// How many blocks of 256 cells the texts of the live buffers have: their characters and the spare beside them.
    pub fn pool_live(&self) -> usize
        ensures account { 256 * result ≡ cells_in self.now.editor.pool self.now.editor.buffers }
    {
        self.editor.pool_live()
    }

    /// Lets all go, and gives the blocks of all texts back.
    pub fn close(self) {
        let KernelState {
            editor,
            hooks: _,
            processes: _,
            scopes: _,
            depth: _,
            asked: _,
            sent: _,
            place,
            room: _,
            alloc: _,
        } = self;
        if let Some(place) = place {
            place.release();
        }
        editor.close();
    }
}
