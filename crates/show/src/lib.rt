// What the program prints, put into a buffer: the reply to a request, a question mark, the clumps of an image. Takes any numbers and any
// image. Nothing here reads input or writes output.
#![tactic(auto)]

ghost use Rattle.std.specs.Prelude.{◌≡◌, ◌+◌, ◌%◌, ◌<◌, leb, length};
ghost use Rattle.rules.specs.Words.{mem, word_bytes};
ghost use Rattle.rules.specs.Clumps.{header_bytes};
ghost use Rattle.page.specs.Forms.{head_of};
ghost use Rattle.text.specs.Writing.{Begins};
ghost use Rattle.line.specs.Texts.{reply_text, bad_text};
ghost use Rattle.show.specs.Shown.{onward};
ghost use Rattle.show.specs.Parts.{one_more, Shows};

use page::clump::Clump;
use rules::Answer;

// A buffer for the clumps has this many bytes, and a line of them this many at most.
const ROOM: usize = 4096;

const LINE: usize = 63;

// A part of the clumps' lines: how many bytes of the buffer they are, and where the walk goes on.
#[derive(Clone, Copy)]
pub struct Part {
    pub count: usize,
    pub next: usize,
}

// "A request prints answer, place and stores." Answers with how many bytes that is.
pub fn reply(out: &mut [u8; 64], a: Answer) -> usize
    ensures { Begins out.old (reply_text a.answer a.place a.stores) out.new result }
{
    line::three(out, 0, a.answer, a.place, a.stores)
}

// "Any other line .. prints `?`."
pub fn question(out: &mut [u8; 64]) -> usize
    ensures { Begins out.old bad_text out.new result }
{
    line::question(out, 0)
}

// Whether a header is left from a place on.
pub fn is_left(length: usize, at: usize) -> bool
    ensures { result ≡ leb (at + header_bytes) length }
{
    at <= length && Clump::HEADER <= (length - at) as u64
}

// Whether one more clump is to be put into the buffer: a header is left, and a line has room.
fn one_more(length: usize, at: usize, count: usize) -> bool
    ensures { result ≡ one_more length at count }
{
    is_left(length, at) && count <= ROOM - LINE
}

// Where the walk goes on behind a clump: at its end, or at the image's where its size is at fault.
fn behind(length: usize, c: Clump) -> usize
    requires { c.at < length }
    ensures { result ≡ onward length (head_of c) }
{
    if seen::header::size_bad(length, c) {
        length
    } else {
        c.at + c.nbytes as usize
    }
}

// "`walk` prints offset, nbytes and state of each clump": from a place on, as many as the buffer has room for.
pub fn clumps(img: &[u8], out: &mut [u8; 4096], from: usize) -> Part
    requires { from % word_bytes ≡ 0 }
    ensures { Shows (length img.now) (mem img.now) from out.old out.new result }
{
    let mut at = from;
    let mut count: usize = 0;
    while one_more(img.len(), at, count) {
        let c = Clump::read(img, at);
        count = line::three(out, count, c.at as u64, c.nbytes, c.state);
        at = behind(img.len(), c);
    }
    Part { count, next: at }
}
