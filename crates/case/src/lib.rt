// What the numbers of a line ask: LENGTH FILL K OFFSET1 WORD1 .. OFFSETK WORDK REQUEST A B C FUSE. Takes any numbers; those that are no
// case are malformed. `line` has how a line is read. Nothing here reads input or asks a pool.
#![tactic(auto)]

ghost use Rattle.std.specs.Prelude.{◌≡◌};
ghost use Rattle.case.specs.Cases.{request_of, case_of};

use line::Numbers;
use rules::Request;

pub mod line;

// A case, its words left in the numbers.
#[derive(Clone, Copy)]
pub struct Case {
    pub length: usize,
    pub fill: u8,
    pub words: usize,
    pub request: Request,
    pub fuse: u64,
}

// The request of that number; 10 and what is above it are grow.
#[tactic(auto, unfolding(crate::specs::Cases::request_of))]
fn request_of(q: u64, a: u64, b: u64, c: u64) -> Request
    ensures { result ≡ request_of q a b c }
{
    match q {
        0 => Request::Create,
        1 => Request::Reserve { size: a },
        2 => Request::Onactive {
            offset: a,
            target: b,
            value: c,
        },
        3 => Request::Onfree {
            offset: a,
            target: b,
            value: c,
        },
        4 => Request::Withdraw { offset: a },
        5 => Request::Activate { offset: a },
        6 => Request::Free { offset: a },
        7 => Request::Check,
        8 => Request::Recover,
        9 => Request::ReserveUncleared { size: a },
        _ => Request::Grow { offset: a, size: b },
    }
}

// The case of a line's numbers; none where they are malformed.
pub fn case_of(numbers: &Numbers) -> Option<Case>
    ensures { result ≡ case_of numbers.now }
{
    let [length, fill, words, ..] = numbers.items;
    if length > 65536 || words > 120 {
        return None;
    }
    let fill = u8::try_from(fill).ok()?;
    let words = words as usize;
    let at = 3 + 2 * words;
    let [q, a, b, c, fuse] = numbers.items.get(at..numbers.count)? else {
        return None;
    };
    if *q > 10 {
        return None;
    }
    Some(Case {
        length: length as usize,
        fill,
        words,
        request: request_of(*q, *a, *b, *c),
        fuse: *fuse,
    })
}
