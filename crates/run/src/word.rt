// The word of an outcome: settled, still or spent.
ghost use Rattle.std.specs.Prelude.{◌≡◌};
ghost use Rattle.run.specs.Word.{outcome_word};

use record::Outcome;

#[tactic(auto, unfolding(crate::specs::Word::outcome_word))]
pub fn word_of(outcome: Outcome) -> &'static [u8]
    ensures { result.now ≡ outcome_word outcome }
{
    match outcome {
        Outcome::Settled => b"settled",
        Outcome::Still => b"still",
        Outcome::Spent => b"spent",
    }
}
