// What a line of the program's input means: it is gathered byte by byte, read, and leaves a fuse for the next request.
// `reply` has how a reply is printed. Nothing here reads input or writes output.
#![tactic(auto)]

ghost use Rattle.std.specs.Prelude.{◌≡◌, [], ◌∷◌, length};
ghost use Rattle.line.specs.Lines.{number, same, named, commands, line_of, fuse_after};
ghost use Rattle.line.specs.Gathering.{kept, Gathered};

use rules::Request;
use text::SPACE;

mod reply;

pub use reply::{question, three};

// What a line asks for: a request, a fuse for the next one, a walk, or nothing, as it is no line of the program's.
#[derive(Clone, Copy)]
pub enum Line {
    Ask { q: Request },
    Fuse { k: u64 },
    Walk,
    Bad,
}

const LONGEST_LINE: usize = 200;

// Puts a byte behind the first ones that a buffer holds, while there is room for it. Answers with how many it holds then.
fn keep(buf: &mut [u8], count: usize, b: u8) -> usize
    ensures { Gathered (length buf.old) buf.old count b buf.new result }
{
    if count < buf.len() {
        buf[count] = b;
        return count + 1;
    }
    buf.len()
}

// A line is gathered byte by byte, and its first 201 bytes are kept: one more than the longest line has. Answers with how many are held.
pub fn gather(buf: &mut [u8; 201], count: usize, b: u8) -> usize
    ensures { Gathered kept buf.old count b buf.new result }
{
    keep(buf, count, b)
}

// The number of a field, if it is one: digits alone, at least one, and a value that stays within 64 bits.
fn value(field: &[u8]) -> Option<u64>
    ensures { result ≡ number field.now }
{
    if field.is_empty() {
        return None;
    }
    let mut n: u64 = 0;
    for b in field {
        if !b.is_ascii_digit() {
            return None;
        }
        n = n.checked_mul(10)?.checked_add((*b - b'0') as u64)?;
    }
    Some(n)
}

// Whether two texts are the same, byte for byte. (Not by `==`: with it a line such as `fuse 5` took longer; docs/LOOK-BACK.md, d1.)
fn same(a: &[u8], b: &[u8]) -> bool
    ensures { result ≡ same a.now b.now }
{
    a.len() == b.len() && a.iter().zip(b).all(|(x, y)| x == y)
}

// The line of a name alone.
#[tactic(auto, unfolding(crate::specs::Lines::named, crate::specs::Lines::commands, rules::specs::Pages::codes))]
fn alone(name: &[u8]) -> Line
    ensures { result ≡ named name.now (commands []) }
{
    if same(name, b"recover") {
        Line::Ask {
            q: Request::Recover,
        }
    } else if same(name, b"walk") {
        Line::Walk
    } else {
        Line::Bad
    }
}

// The line of a name and one number.
fn with_one(name: &[u8], n: u64) -> Line
    ensures { result ≡ named name.now (commands (n ∷ [])) }
{
    if same(name, b"reserve") {
        Line::Ask {
            q: Request::Reserve { size: n },
        }
    } else if same(name, b"reserve_uncleared") {
        Line::Ask {
            q: Request::ReserveUncleared { size: n },
        }
    } else if same(name, b"withdraw") {
        Line::Ask {
            q: Request::Withdraw { offset: n },
        }
    } else if same(name, b"activate") {
        Line::Ask {
            q: Request::Activate { offset: n },
        }
    } else if same(name, b"free") {
        Line::Ask {
            q: Request::Free { offset: n },
        }
    } else if same(name, b"fuse") {
        Line::Fuse { k: n }
    } else {
        Line::Bad
    }
}

// The line of a name, an offset and a size.
#[tactic(auto, unfolding(crate::specs::Lines::named, crate::specs::Lines::commands, rules::specs::Pages::codes))]
fn with_two(name: &[u8], offset: u64, size: u64) -> Line
    ensures { result ≡ named name.now (commands (offset ∷ size ∷ [])) }
{
    if same(name, b"grow") {
        Line::Ask {
            q: Request::Grow { offset, size },
        }
    } else {
        Line::Bad
    }
}

// The line of a name, an offset, a target and a value.
#[tactic(auto, unfolding(crate::specs::Lines::named, crate::specs::Lines::commands, rules::specs::Pages::codes))]
fn with_three(name: &[u8], offset: u64, target: u64, value: u64) -> Line
    ensures { result ≡ named name.now (commands (offset ∷ target ∷ value ∷ [])) }
{
    if same(name, b"onactive") {
        Line::Ask {
            q: Request::Onactive {
                offset,
                target,
                value,
            },
        }
    } else if same(name, b"onfree") {
        Line::Ask {
            q: Request::Onfree {
                offset,
                target,
                value,
            },
        }
    } else {
        Line::Bad
    }
}

// What a line means: the bytes before its newline. Its fields are parted by one space: a name, and up to three numbers.
pub fn read(line: &[u8]) -> Line
    ensures { result ≡ line_of line.now }
{
    if LONGEST_LINE < line.len() {
        return Line::Bad;
    }
    let mut fields = line.split(|b| *b == SPACE);
    let Some(name) = fields.next() else {
        return Line::Bad;
    };
    let Some(first) = fields.next() else {
        return alone(name);
    };
    let Some(first) = value(first) else {
        return Line::Bad;
    };
    let Some(second) = fields.next() else {
        return with_one(name, first);
    };
    let Some(second) = value(second) else {
        return Line::Bad;
    };
    let Some(third) = fields.next() else {
        return with_two(name, first, second);
    };
    let Some(third) = value(third) else {
        return Line::Bad;
    };
    if let Some(_) = fields.next() {
        return Line::Bad;
    }
    with_three(name, first, second, third)
}

// The fuse that the next request has after a line.
#[tactic(auto, unfolding(crate::specs::Lines::fuse_after))]
pub fn fuse_after(fuse: u64, line: Line) -> u64
    ensures { result ≡ fuse_after fuse line }
{
    match line {
        Line::Ask { .. } => u64::MAX,
        Line::Fuse { k } => k,
        Line::Walk | Line::Bad => fuse,
    }
}
