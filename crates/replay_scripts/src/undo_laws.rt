//! A law: what is written reads back. It is the contract of a function that does nothing.

ghost use Rattle.std.specs.Prelude.{Bool, List};
ghost use Rattle.replay_scripts.specs.ScriptText.{Back, ReadsBack};

/// The text of changes is a script that spells them, with their guards.
#[tactic(auto, using(crate::proofs::Spelled::reads_back))]
pub fn read_back()
    ensures { (guarded : Bool) (groups : List (List Back)) → ReadsBack guarded groups }
{}
