use crate::hints::HintNumber;

/// The question that the next line of the player answers.
#[derive(Clone, Copy, Debug, PartialEq, Eq)]
pub enum Question {
    /// Whether the player wants instructions.
    Welcome,
    /// Whether to end the game.
    Quit,
    /// Whether to end the game, asked after the score was printed.
    ScoreQuit,
    /// Whether to come back from death.
    Die,
    /// Whether the player wants a hint.
    Hint(HintNumber),
    /// Whether the hint is worth its cost.
    Take(HintNumber),
    /// Whether what is written under the oyster is worth its cost.
    Oyster,
    /// Whether to fight a dragon with bare hands.
    Dragon,
}

/// How a game has ended.
#[derive(Clone, Copy, Debug, PartialEq, Eq)]
pub enum Ending {
    Quit,
    Killed,
    Klutz,
    WrongWay,
    Success,
}
