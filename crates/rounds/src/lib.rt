//! Rounds played with delays, and what they have to do with the outcomes of a move.
#![tactic(auto)]

ghost use Rattle.std.specs.Prelude.{◌≡◌};
ghost use Rattle.rounds.specs.Theorems.{Played, Playable};

/// The laws of rounds, each stated in specs/Theorems.antt.
pub fn rounds_stand() -> u8
    ensures answer { result ≡ 0 }
    ensures played { Played }
    ensures playable { Playable }
{
    0
}
