//! What the table is to the machine: laws over all changes, so that no call tells it again.
ghost use Rattle.std.specs.Prelude.{◌≡◌, ℕ, false, true, List, [], ◌∷◌, ◌++◌, Option};
ghost use Rattle.std.specs.Prelude.{Result, Some, slice_get};
ghost use Rattle.text_model.specs.Codings.{decoded, undecoded, all_decoded};
ghost use Rattle.editor_model.specs.Editor.{Name};
ghost use Rattle.editor_model.specs.Values.{Value};
ghost use Rattle.plain_machine.specs.State.{State, Process as Meant, process, change_process};
ghost use Rattle.plain_machine.specs.State.{read_so_far};
ghost use Rattle.plain_machine.specs.Arguments.{process_name};
ghost use Rattle.plain_machine.specs.Waits.{more_characters};
ghost use Rattle.ek_call.specs.declared.fault.Fault.{Fault};
ghost use Rattle.process_table.specs.Table.{kept, StandsFor, new_process, changed, coding_by};
ghost use Rattle.process_table.specs.Table.{held_by, with_table, with_held, with_drained};
ghost use Rattle.process_table.specs.Resolving.{Resolves};

/// A process of the table is the machine's of the same number, as the table keeps it.
#[tactic(auto, using(crate::proofs::Standing::one_stands))]
pub fn processes_stand()
    ensures { (table : List Meant) (s : State) (p : ℕ) (x : Meant) → StandsFor table s.processes →
        slice_get table p ≡ Some x → (y : Meant) × (process s p ≡ Some y) × (x ≡ kept y) }
{}

/// The machine's change of one process changes the list of processes alone, as the table is changed. Where a change of
/// the machine's process and one of the table's agree on it, the table stands for the machine's list afterwards; it
/// does also where both have one process more.
#[tactic(auto, using(crate::proofs::Standing::list_alone, crate::proofs::Changing::changed_stands, crate::proofs::Standing::added_stands))]
pub fn changes_stand()
    ensures list { (s : State) (p : ℕ) (f : Meant → Meant) →
        change_process p f s ≡ record s { processes = changed p f s.processes } }
    ensures one { (p : ℕ) (f g : Meant → Meant) (table : List Meant) (s : State) →
        ((x : Meant) → process s p ≡ Some x → f (kept x) ≡ kept (g x)) →
        StandsFor table s.processes → StandsFor (changed p f table)
        (change_process p g s).processes }
    ensures added { (table all : List Meant) (name : Name) (child : ℕ) (buffer : Option ℕ)
        (mark : ℕ) → StandsFor table all →
        StandsFor (table ++ new_process name child buffer mark ∷ [])
        (all ++ new_process name child buffer mark ∷ []) }
{}

/// What the table resolves and names is what the machine does: a process that an argument gives, its refusal, and the
/// name of a new process.
#[tactic(auto, using(crate::proofs::Resolution::resolves_stands, crate::proofs::Resolution::name_stands))]
pub fn answers_stand()
    ensures resolves { (table : List Meant) (s : State) (v : Value) (result : Result ℕ Fault) →
        StandsFor table s.processes → Resolves (with_table table) v result → Resolves s v result }
    ensures name { (table all : List Meant) (name : Name) → StandsFor table all →
        process_name table name ≡ process_name all name }
{}

/// Output that is read, or that ends, makes of the bytes held what it makes of all bytes that the machine keeps: the same
/// characters come out, and the table stands for the machine's list afterwards.
#[tactic(auto, using(crate::proofs::Reading::fed_stands, crate::proofs::Reading::fed_text, crate::proofs::Reading::drained_stands, crate::proofs::Reading::drained_text))]
pub fn output_stands()
    ensures fed { (table : List Meant) (s : State) (p : ℕ) (x : Meant) (bytes : List ℕ) →
        StandsFor table s.processes → process s p ≡ Some x → x.drained ≡ false →
        StandsFor (changed p (with_held (undecoded (coding_by table p) (held_by table p ++ bytes))) table)
        (change_process p (λ y. record y { bytes = Some (read_so_far x ++ bytes) }) s).processes }
    ensures fed_text { (table : List Meant) (s : State) (p : ℕ) (x : Meant) (bytes : List ℕ) →
        StandsFor table s.processes → process s p ≡ Some x → x.drained ≡ false →
        decoded (coding_by table p) (held_by table p ++ bytes) ≡
        more_characters (decoded x.coding (read_so_far x)) (decoded x.coding (read_so_far x ++ bytes)) }
    ensures drained { (table : List Meant) (s : State) (p : ℕ) → StandsFor table s.processes →
        StandsFor (changed p with_drained table)
        (change_process p (λ y. record y { drained = true }) s).processes }
    ensures drained_text { (table : List Meant) (s : State) (p : ℕ) (x : Meant) →
        StandsFor table s.processes → process s p ≡ Some x → x.drained ≡ false →
        all_decoded (coding_by table p) (held_by table p) ≡
        more_characters (decoded x.coding (read_so_far x)) (all_decoded x.coding (read_so_far x)) }
{}
