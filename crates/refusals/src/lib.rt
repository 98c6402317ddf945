// The number and the place of each refusal, and the verdict that it makes.
#![tactic(auto)]

ghost use Rattle.std.specs.Prelude.{◌≡◌};
ghost use Rattle.model.specs.Refusal.{number_of, place_of};
ghost use Rattle.model.specs.Verdict.{refusing};

use model::{Refusal, Verdict};

// A refusal, and the goals derived by then.
#[derive(Clone, Copy)]
pub struct Refused {
    pub refusal: Refusal,
    pub goals: usize,
}

// Each refusal's number in documents 01 and 02, and its place; 0 where there is no place.
#[tactic(auto, unfolding(model::specs::Refusal::number_of, model::specs::Refusal::place_of))]
fn answer_of(refusal: Refusal) -> (u32, usize)
    ensures { (result.0 ≡ number_of refusal) × (result.1 ≡ place_of refusal) }
{
    match refusal {
        Refusal::SmallWorkspace => (1, 0),
        Refusal::WrongStart => (2, 0),
        Refusal::PolicyLength(at) => (3, at),
        Refusal::PolicySize(at) => (4, at),
        Refusal::BadRegion(at) => (5, at),
        Refusal::PolicyExpression(at) => (6, at),
        Refusal::BadHeader(at) => (7, at),
        Refusal::BadInstruction(at) => (8, at),
        Refusal::BadTarget(at) => (9, at),
        Refusal::BadAnnotation(at) => (10, at),
        Refusal::AnnotationBytes(at) => (11, at),
        Refusal::Unannotated(at) => (12, at),
        Refusal::PastLast(at) => (13, at),
        Refusal::LargeTerm(at) => (14, at),
        Refusal::ProofExhausted(at) => (15, at),
        Refusal::UnfitRule(at) => (16, at),
        Refusal::DeepDerivation(at) => (17, at),
        Refusal::BadArgument(at) => (18, at),
        Refusal::ProofLeft(at) => (19, at),
        Refusal::LongBlock(at) => (23, at),
    }
}

// A refusal's number in documents 01 and 02.
pub fn number(refusal: Refusal) -> u32
    ensures { result ≡ number_of refusal }
{
    answer_of(refusal).0
}

// Where a refusal lies; 0 for those that have no place.
pub fn place(refusal: Refusal) -> usize
    ensures { result ≡ place_of refusal }
{
    answer_of(refusal).1
}

// The verdict of a refusal, with so many goals derived by then.
pub fn refusing(refusal: Refusal, goals: usize) -> Verdict
    ensures { result ≡ refusing refusal goals }
{
    Verdict {
        number: number(refusal),
        place: place(refusal),
        goals,
    }
}

// A check that refuses comes before the first goal.
impl From<Refusal> for Refused {
    ghost from_gives = { λ refusal r. r ≡ record { refusal = refusal; goals = 0 } };

    fn from(refusal: Refusal) -> Refused {
        Refused { refusal, goals: 0 }
    }
}

impl From<Refused> for Verdict {
    ghost from_gives = { λ refused r. r ≡ refusing refused.refusal refused.goals };

    fn from(refused: Refused) -> Verdict {
        refusing(refused.refusal, refused.goals)
    }
}
