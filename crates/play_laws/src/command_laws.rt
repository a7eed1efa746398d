//! A law of the command line. It is the contract of a function that does nothing.

ghost use Rattle.play_laws.specs.CommandLaws.{WordsAskForOneRun};

/// Words that ask for a run ask for no other one, and neither for a text nor for a refusal.
pub fn words_ask_for_one_run()
    ensures { WordsAskForOneRun }
{}
