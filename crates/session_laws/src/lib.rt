//! Laws of line sessions: what their two natives come to on the plain machine.
#![tactic(auto)]

ghost use Rattle.std.specs.Prelude.{ℕ, List};
ghost use Rattle.editor_model.specs.Values.{Value};
ghost use Rattle.session_laws.specs.Filtering.{FilterPuts, FilterStops};
ghost use Rattle.session_laws.specs.Sessions.{SessionEnds, SessionStarts};

/// The filter of a session puts its text at the end of the session's buffer, where there is room for it. No process
/// changes.
#[tactic(auto, using(crate::proofs::Filtering::filter_puts_its_text))]
pub fn a_filter_puts_its_text_at_the_end()
    ensures { (limit : ℕ) (command : List Value) (bound : ℕ) → FilterPuts limit command bound }
{}

/// Where there is no room, the filter of a session leaves the text, and its process is read no more.
#[tactic(auto, using(crate::proofs::Filtering::filter_stops_its_process))]
pub fn a_filter_without_room_stops_its_process()
    ensures { (limit : ℕ) (command : List Value) (bound : ℕ) → FilterStops limit command bound }
{}

/// Where the run of a session's script has ended, its text is all lines of its exchanges; or what came by the last
/// exchange but for a kill found no room, and the text is the lines before it.
pub fn a_session_ends_with_its_lines()
    ensures { (limit : ℕ) (words : List Value) (bound : ℕ) → SessionEnds limit words bound }
{}

/// Wherever that run stands, a child was started at most so many times and once, and each but the first behind one
/// that ended otherwise than by code 0.
pub fn a_session_starts_again_behind_a_failure()
    ensures { (limit : ℕ) (words : List Value) (bound : ℕ) → SessionStarts limit words bound }
{}
