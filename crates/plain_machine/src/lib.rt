//! The plain editor machine, as definitions that contracts cite.
#![tactic(auto)]

ghost use Rattle.std.specs.Prelude.{◌++◌, List, ℕ};
ghost use Rattle.plain_machine.specs.State.{Program};
ghost use Rattle.plain_machine.specs.Exchanges.{Exchange};
ghost use Rattle.plain_machine.specs.Items.{Config, Said};
ghost use Rattle.plain_machine.specs.Run.{Reaches};

/// Runs follow one another.
#[tactic(auto, using(crate::proofs::Composed::reaches_then))]
pub fn runs_compose()
    ensures { (program : Program) (bound : ℕ) (c d e : Config) (first second : List Exchange)
        (said more : List Said) → Reaches program bound c first said d →
        Reaches program bound d second more e →
        Reaches program bound c (first ++ second) (said ++ more) e }
{}
