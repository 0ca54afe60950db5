// What a case leads to, and the line that it gets, put together in a buffer from its start on. Asks for a buffer of 288 bytes: a number
// takes 21 at most, with the byte behind it, so that the thirteen of a line fit. `sum` has the checksum of an image. Nothing here asks a
// pool or writes output.
#![tactic(auto)]

ghost use Rattle.std.specs.Prelude.{◌≡◌, ◌≤◌, None, Some, length};
ghost use Rattle.text.specs.Writing.{Wrote};
ghost use Rattle.outcome.specs.Texts.{line_bytes, fields_of, text_of};

use rules::{Answer, Totals};

pub mod sum;

// What a request answers, and what it leaves: the totals and the checksum of the image afterwards.
#[derive(Clone, Copy)]
pub struct Outcome {
    pub answer: Answer,
    pub totals: Totals,
    pub sum: u64,
}

// N ANSWER PLACE FAULT STORES FROM TO FREE RESERVED ACTIVATING ACTIVE FREEING SUM
fn fields(case: u64, o: Outcome) -> [u64; 13]
    ensures { result ≡ fields_of case o }
{
    let a = o.answer;
    let t = o.totals;
    [
        case,
        a.answer,
        a.place,
        a.fault,
        a.stores,
        a.flush_from,
        a.flush_to,
        t.free,
        t.reserved,
        t.activating,
        t.active,
        t.freeing,
        o.sum,
    ]
}

// The line of a case that was run.
fn done(out: &mut [u8], case: u64, o: Outcome) -> usize
    requires { line_bytes ≤ length out.old }
    ensures wrote { Wrote out.old 0 (text_of case (Some o)) out.new result }
    ensures upper_bound { result ≤ line_bytes }
{
    let f = fields(case, o);
    let mut at: usize = 0;
    for n in &f[..12] {
        at = text::number(out, at, *n, b' ');
    }
    text::number(out, at, f[12], b'\n')
}

// The line of a malformed one.
fn malformed(out: &mut [u8], case: u64) -> usize
    requires { line_bytes ≤ length out.old }
    ensures wrote { Wrote out.old 0 (text_of case None) out.new result }
    ensures upper_bound { result ≤ line_bytes }
{
    let at = text::number(out, 0, case, b' ');
    text::bytes(out, at, b"bad\n")
}

// The line of a case, by its number and what it leads to; none where it is malformed. Answers with how long it is.
pub fn line(out: &mut [u8], case: u64, ran: Option<Outcome>) -> usize
    requires { line_bytes ≤ length out.old }
    ensures wrote { Wrote out.old 0 (text_of case ran) out.new result }
    ensures upper_bound { result ≤ line_bytes }
{
    match ran {
        Some(o) => done(out, case, o),
        None => malformed(out, case),
    }
}
