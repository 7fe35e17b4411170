// The word of a judgement.

ghost use Rattle.std.specs.Prelude.{◌≡◌};
ghost use Rattle.lam_answers.specs.inside.Computed.{word_of as word_spec};

use lam_judge::Judgement;
use lam_tree::{Spot, Word};

/// The word of a leaf whose only schedule is judged so.
pub fn word_of(judgement: Judgement) -> Word
    ensures { result ≡ word_spec judgement }
{
    match judgement {
        Judgement::Admissible => Word::Admissible,
        Judgement::Broken(rule) => Word::Rule(rule),
        Judgement::OutOfRange(case) => Word::Range(case),
        Judgement::Fails(at) => Word::Fails(at),
        Judgement::Buckles(panel) => Word::Buckles(panel),
        Judgement::StraddlesPly(at) => Word::Straddles(Spot::Ply(at)),
        Judgement::StraddlesPanel(panel) => Word::Straddles(Spot::Panel(panel)),
    }
}
