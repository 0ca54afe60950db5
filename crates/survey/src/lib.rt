// The survey that every request begins with, and the public request check. Both take any bytes, and walk over the clumps once, but for the
// targets of an unfinished clump.
#![tactic(auto)]

ghost use Rattle.std.specs.Prelude.{◌≡◌, ◌||◌, [], ℕ, length, is_some};
ghost use Rattle.rules.specs.Words.{mem};
ghost use Rattle.rules.specs.Answers.{granted, if_settled, answer_of};
ghost use Rattle.answer.specs.Refusals.{answer_in};
ghost use Rattle.survey.specs.Checking.{Surveys, Checks};

use answer::Refusal;
use rules::{Answer, Totals};
use seen::Seen;

// What the tests 1 and 2 came to, and what the walk over the clumps has seen, also where they refuse.
#[derive(Clone, Copy)]
pub struct Surveyed {
    pub tests: Result<(), Refusal>,
    pub seen: Seen,
}

// The tests 1 and 2. Of what is no pool nothing is seen.
pub fn sound(img: &[u8]) -> Surveyed
    ensures { Surveys img.now result }
{
    if !page::is_pool(img) {
        return Surveyed {
            tests: Err(Refusal::NotAPool),
            seen: Seen::start(),
        };
    }
    let seen = judge::see(img);
    let tests = match judge::judge(img, seen) {
        None => Ok(()),
        Some(fault) => Err(Refusal::NotSound {
            place: fault.place as u64,
            fault: fault.number,
        }),
    };
    Surveyed { tests, seen }
}

// Whether a clump is unfinished or two FREE clumps touch.
fn is_unsettled(s: Seen) -> bool
    ensures { result ≡ (is_some s.first || s.touched) }
{
    s.first.is_some() || s.touched
}

// The tests 1, 2 and 3, which every request but create, check and recover begins with.
pub fn survey(img: &[u8]) -> Result<(), Refusal>
    ensures { (fuse : ℕ) → answer_in result ≡ answer_of fuse (if_settled (length img.now) (mem img.now) (granted 0 [])) }
{
    let surveyed = sound(img);
    surveyed.tests?;
    if is_unsettled(surveyed.seen) {
        return Err(Refusal::Unsettled);
    }
    Ok(())
}

// What check answers, and its five totals.
#[repr(C)]
#[derive(Clone, Copy)]
pub struct Checked {
    pub answer: Answer,
    pub totals: Totals,
}

pub fn check(img: &[u8]) -> Checked
    ensures { Checks img.now result }
{
    let surveyed = sound(img);
    match surveyed.tests {
        Ok(()) => Checked {
            answer: answer::unstored(Answer::DONE, 0, 0),
            totals: surveyed.seen.totals,
        },
        Err(refusal) => Checked {
            answer: Answer::from(refusal),
            totals: Totals {
                free: 0,
                reserved: 0,
                activating: 0,
                active: 0,
                freeing: 0,
            },
        },
    }
}
