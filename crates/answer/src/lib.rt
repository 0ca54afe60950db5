// What a request answers: a refusal, which is without a store, and what the power tells at its end. Each function takes any numbers and any
// power; none sees an image.
#![tactic(auto)]

ghost use Rattle.std.specs.Prelude.{◌≡◌};
ghost use Rattle.rules.specs.Answers.{answer_by};
ghost use Rattle.word.specs.Runs.{range, told};
ghost use Rattle.laws.specs.Pools.{answer_is};

use rules::Answer;
use word::Power;

// Why a request was refused. Of a pool that is not sound it has the place and the number of the fault.
#[derive(Clone, Copy, Debug, PartialEq, Eq)]
pub enum Refusal {
    NotAPool,
    NotSound { place: u64, fault: u64 },
    Unsettled,
    SizeZero,
    NoRoom,
    NoClump,
    WrongState,
    ListFull,
    ListEmpty,
    BadTarget,
}

// The answer by which C and the program are told.
impl From<Refusal> for Answer {
    ghost use Rattle.answer.specs.Refusals.{refusal_is};
    ghost use Rattle.std.specs.Prelude.{◌≡◌};

    ghost from_gives = { λ refusal answer. answer ≡ refusal_is refusal };

    fn from(refusal: Refusal) -> Answer {
        let number = match refusal {
            Refusal::NotAPool => Answer::NOT_A_POOL,
            Refusal::NotSound { place, fault } => return unstored(Answer::NOT_SOUND, place, fault),
            Refusal::Unsettled => Answer::UNSETTLED,
            Refusal::SizeZero => Answer::SIZE_ZERO,
            Refusal::NoRoom => Answer::NO_ROOM,
            Refusal::NoClump => Answer::NO_CLUMP,
            Refusal::WrongState => Answer::WRONG_STATE,
            Refusal::ListFull => Answer::LIST_FULL,
            Refusal::ListEmpty => Answer::LIST_EMPTY,
            Refusal::BadTarget => Answer::BAD_TARGET,
        };
        unstored(number, 0, 0)
    }
}

// An answer without a store.
pub fn unstored(answer: u64, place: u64, fault: u64) -> Answer
    ensures { result ≡ answer_is answer place fault }
{
    Answer {
        answer,
        place,
        fault,
        stores: 0,
        flush_from: 0,
        flush_to: 0,
    }
}

// The answer of that number and place, with what the power tells of the stores.
fn ended(p: Power, number: u64, place: u64) -> Answer
    ensures { result ≡ answer_by number place 0 p.made (range p) }
{
    Answer {
        answer: number,
        place,
        fault: 0,
        stores: p.made,
        flush_from: p.from,
        flush_to: p.to,
    }
}

// The end of a request that stores: done with its place, or cut.
pub fn finish(p: Power, place: u64) -> Answer
    ensures { result ≡ told p place }
{
    if p.cut {
        ended(p, Answer::CUT, 0)
    } else {
        ended(p, Answer::DONE, place)
    }
}
