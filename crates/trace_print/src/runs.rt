//! Runs of characters with one property set.
ghost use Rattle.std.specs.Prelude.{◌≡◌, ◌<◌, List, length, slice_get, Some};
ghost use Rattle.text_model.specs.Properties.{PropSet as Set, stretches, same_set};
ghost use Rattle.prop_intervals.specs.Sets.{run_end};
ghost use Rattle.trace_print.specs.Strings.{has_set};

use ek_types::{Piece, PropSet};
use prop_intervals::run_end_in;

/// The property sets of characters, counted from 0.
pub(crate) trait Sets {
    ghost sets: { Self → List Set };

    fn size(&self) -> usize
        ensures { result ≡ length (sets self.now) };

    fn set(&self, i: usize) -> &PropSet
        requires { i < length (sets self.now) }
        ensures { slice_get (sets self.now) i ≡ Some result.now };

    /// The first place behind another whose set differs from the set there, or the size.
    fn end_of_run(&self, i: usize) -> usize
        requires { i < length (sets self.now) }
        ensures { result ≡ run_end i (sets self.now) };
}

impl Sets for Piece {
    ghost use Rattle.std.specs.Prelude.{map};

    ghost sets = { λ p. map (λ c. c.1) p };

    fn size(&self) -> usize {
        self.len()
    }

    fn set(&self, i: usize) -> &PropSet {
        self.props(i)
    }

    fn end_of_run(&self, i: usize) -> usize {
        run_end_in(self, i)
    }
}

/// Whether some character has a property.
pub(crate) fn has_properties<T: Sets>(text: &T) -> bool
    ensures { result ≡ has_set (stretches same_set 0 (T.sets text.now)) }
{
    let mut at = 0;
    while at < text.size() {
        let set = text.set(at);
        if set.len() > 0 {
            return true;
        }
        at = text.end_of_run(at);
    }
    false
}
