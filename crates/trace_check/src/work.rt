//! The list of work.
ghost use Rattle.std.specs.Prelude.{◌≡◌, ◌<◌, ◌≤◌, [], ◌∷◌, OnOk, OnErr, IfNone, IfOk, IfSome};
ghost use Rattle.plain_machine.specs.Run.{start};
ghost use Rattle.ek_call.specs.Meaning.{script_of};
ghost use Rattle.trace_check.specs.Meaning.{item_of, list_of, places_of};

use crate::item::Item;
use ek_call::Script;
use ek_types::{Copied, Mem};
use std::alloc::Global;

/// The flat list of what is left to do, the next item first. Its items lie in the opposite order, so that the next one is
/// taken and others are put in front without moving the rest.
#[derive(Drop)]
pub struct Work {
    items: Vec<Item>,
}

impl Work {
    /// No work.
    pub fn new(alloc: Global) -> Work
        ensures { list_of result ≡ [] }
    {
        Work {
            items: Vec::new(alloc),
        }
    }

    /// The forms of a script.
    pub(crate) fn of_script(alloc: Global, script: &Script) -> Mem<Work>
        ensures { IfOk result (λ work. list_of work ≡ (start (script_of script.now)).work) }
    {
        let forms = script.forms.copy()?;
        let mut work = Work::new(alloc);
        work.put(Item::Top { forms, at: 0 })?;
        Ok(work)
    }

    /// Puts an item in front. A refusal leaves the list as it was.
    #[tactic(auto, using(crate::proofs::Listing::work_more))]
    pub fn put(&mut self, item: Item) -> Mem<()>
        ensures ok { OnOk result (list_of self.new ≡ item_of item ∷ (list_of self.old)) }
        ensures err { OnErr result (list_of self.new ≡ (list_of self.old)) }
    {
        self.items.push(item)?;
        Ok(())
    }

    /// Puts an item in front in the place of one that was taken. It takes no memory.
    #[tactic(auto, using(crate::proofs::Listing::work_more))]
    pub(crate) fn put_back(&mut self, item: Item)
        requires { 0 < places_of self.old }
        ensures { list_of self.new ≡ item_of item ∷ (list_of self.old) }
    {
        self.items.push_reserved(item);
    }

    /// Takes the next item, if there is one.
    #[tactic(auto, using(crate::proofs::Listing::work_more))]
    pub(crate) fn take(&mut self) -> Option<Item>
        ensures none { IfNone result ((list_of self.old ≡ []) × (list_of self.new ≡ [])) }
        ensures some { IfSome result (λ item. (list_of self.old) ≡ item_of item ∷ (list_of self.new)) }
        ensures place { IfSome result (λ item. 0 < (places_of self.new)) }
    {
        let item = self.items.pop()?;
        Some(item)
    }

    /// Drops all work, and keeps its places.
    pub(crate) fn clear(&mut self)
        ensures work { list_of self.new ≡ [] }
        ensures places { places_of self.old ≤ places_of self.new }
    {
        self.items.clear();
    }
}
