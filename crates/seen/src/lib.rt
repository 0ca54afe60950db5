// What one walk over the clumps has seen: a small state that goes by value from clump to clump. Holds no image and asks for none: the
// length and one header's words are enough, so that they may also come a block at a time.
#![tactic(auto)]

ghost use Rattle.std.specs.Prelude.{◌≡◌, ◌+◌, ◌<◌, ◌≤◌};
ghost use Rattle.rules.specs.Words.{word_values};
ghost use Rattle.rules.specs.Clumps.{FREEING};
ghost use Rattle.page.specs.Forms.{head_of};
ghost use Rattle.seen.specs.Forms.{fault_in};
ghost use Rattle.seen.specs.States.{UpTo, nothing, broken, added, met, more, takes};

pub mod header;

use page::clump::Clump;
use rules::Totals;

// A fault of a pool: its number, 1 to 5, and the offset of the header of the clump at fault.
#[derive(Clone, Copy, Debug, PartialEq, Eq)]
pub struct Fault {
    pub place: usize,
    pub number: u64,
}

// The first of the faults 1 to 3, where a walk ends; the first unfinished clump and the second, by their offsets; whether a FREE clump came
// last, and whether two touched; and the bytes in each state.
#[derive(Clone, Copy)]
pub struct Seen {
    pub fault: Option<Fault>,
    pub first: Option<usize>,
    pub second: Option<usize>,
    pub free: bool,
    pub touched: bool,
    pub totals: Totals,
}

// The totals with one clump more, in one of the five states.
fn add(t: Totals, c: Clump) -> Totals
    requires up_to { UpTo c.at t }
    requires end_fits { c.at + c.nbytes < word_values }
    requires one_of_five { c.state ≤ FREEING }
    ensures { result ≡ added t (head_of c) }
{
    match c.state {
        Clump::FREE => Totals {
            free: t.free + c.nbytes,
            ..t
        },
        Clump::RESERVED => Totals {
            reserved: t.reserved + c.nbytes,
            ..t
        },
        Clump::ACTIVE => Totals {
            active: t.active + c.nbytes,
            ..t
        },
        Clump::ACTIVATING => Totals {
            activating: t.activating + c.nbytes,
            ..t
        },
        _ => Totals {
            freeing: t.freeing + c.nbytes,
            ..t
        },
    }
}

impl Seen {
    // Before the first clump.
    pub fn start() -> Seen
        ensures { result ≡ nothing }
    {
        Seen {
            fault: None,
            first: None,
            second: None,
            free: false,
            touched: false,
            totals: Totals {
                free: 0,
                reserved: 0,
                activating: 0,
                active: 0,
                freeing: 0,
            },
        }
    }

    // With a clump at fault.
    pub fn fail(self, fault: Fault) -> Seen
        ensures { result ≡ broken fault.number fault.place self }
    {
        Seen {
            fault: Some(fault),
            ..self
        }
    }

    // With one clump more, but for the totals.
    fn meet(self, c: Clump) -> Seen
        ensures { result ≡ met self (head_of c) }
    {
        let pending = header::pending(c.state);
        let free = c.state == Clump::FREE;
        Seen {
            first: if pending {
                self.first.or(Some(c.at))
            } else {
                self.first
            },
            second: if pending && self.first.is_some() {
                self.second.or(Some(c.at))
            } else {
                self.second
            },
            free,
            touched: free && self.free || self.touched,
            ..self
        }
    }

    // With one clump more, which has none of the faults 1 to 3.
    fn pass(self, c: Clump) -> Seen
        requires up_to { UpTo c.at self.totals }
        requires end_fits { c.at + c.nbytes < word_values }
        requires one_of_five { c.state ≤ FREEING }
        ensures { result ≡ more self (head_of c) }
    {
        Seen {
            totals: add(self.totals, c),
            ..self.meet(c)
        }
    }

    // With one clump more: its header and its list.
    #[tactic(auto, using(crate::specs::Judging::fault_none))]
    pub fn take(self, n: usize, c: Clump, l: [[u64; 2]; 3]) -> Seen
        requires in_image { c.at ≤ n }
        requires up_to { UpTo c.at self.totals }
        ensures { result ≡ takes (fault_in n l (head_of c)) self (head_of c) }
    {
        match header::fault_of(n, c, l) {
            Some(number) => self.fail(Fault {
                place: c.at,
                number,
            }),
            None => self.pass(c),
        }
    }
}
