// A case run: the image with its fill and its words, the request asked of it, a check of what it leaves, and the checksum. `run` takes any
// line; the parts below it ask for the bounds that `case_of` has tested.
#![tactic(auto)]

ghost use Rattle.std.specs.Prelude.{◌≡◌, ◌≤◌, Some, OnSome, is_some, length};
ghost use Rattle.rules.specs.Words.{carry};
ghost use Rattle.case.specs.Cases.{most_length, most_words, case_of};
ghost use Rattle.trial.specs.Outcomes.{lies, words, all_lie, filled, outcome_of, ran_of, ran_by};

use case::Case;
use case::line::{Line, Numbers, Reading};
use outcome::Outcome;
use rules::Request;
use word::Fuse;

// Whether a word lies at that offset of an image of n bytes.
fn word_lies(n: usize, at: u64) -> bool
    ensures { result ≡ lies n at }
{
    at % 8 == 0 && n >= 8 && at <= (n - 8) as u64
}

// The words of a case put into its image, each with power for one store; none where one cannot lie there. (By index, as `words` and
// `all_lie` count.)
fn put_words(img: &mut [u8], numbers: &Numbers, count: usize) -> Option<()>
    requires { count ≤ most_words }
    ensures value { is_some result ≡ all_lie (length img.old) numbers.now.items count }
    ensures img_after { OnSome result (img.new ≡ carry img.old (words numbers.now.items count)) }
{
    for i in 0..count {
        let at = numbers.items[3 + 2 * i];
        let w = numbers.items[4 + 2 * i];
        if !word_lies(img.len(), at) {
            return None;
        }
        Fuse::new(1).store(img, at as usize, w);
    }
    Some(())
}

// The request asked of the image, and what it leaves.
#[tactic(auto, unfolding(crate::specs::Outcomes::outcome_of))]
fn tried(img: &mut [u8], request: Request, fuse: u64) -> Outcome
    ensures { result ≡ outcome_of img.old request fuse }
{
    let answer = pool::ask(img, request, fuse);
    let checked = pool::check(img);
    let totals = checked.totals;
    let sum = outcome::sum::checksum(img);
    Outcome {
        answer,
        totals,
        sum,
    }
}

// Room for every image, each byte the fill.
#[tactic(auto, unfolding(crate::specs::Outcomes::filled))]
fn filled(fill: u8) -> [u8; 65536]
    ensures { result ≡ filled fill most_length }
{
    [fill; 65536]
}

// A case run in an image of its own.
fn run_case(numbers: &Numbers, case: Case) -> Option<Outcome>
    requires length_le_most { case.length ≤ most_length }
    requires words_le_most { case.words ≤ most_words }
    ensures { result ≡ ran_of numbers.now.items (Some case) }
{
    let mut space = filled(case.fill);
    let img = &mut space[..case.length];
    put_words(img, numbers, case.words)?;
    Some(tried(img, case.request, case.fuse))
}

// The case of a line's numbers; none where they are malformed.
fn run_numbers(numbers: &Numbers) -> Option<Outcome>
    ensures { result ≡ ran_of numbers.now.items (case_of numbers.now) }
{
    run_case(numbers, case::case_of(numbers)?)
}

// What a line leads to that is read to its end; none where it is malformed.
pub fn run(l: &Line) -> Option<Outcome>
    ensures { result ≡ ran_by l.now }
{
    match l.reading {
        Reading::Nothing => run_numbers(&l.numbers),
        Reading::Number(_) | Reading::Malformed => None,
    }
}
