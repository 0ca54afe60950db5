// How a reply is put into a buffer: three numbers on a line, in decimal, or a question mark. Asks that the buffer has room.
ghost use Rattle.std.specs.Prelude.{◌+◌, ◌≤◌, length};
ghost use Rattle.text.specs.Writing.{Wrote};
ghost use Rattle.line.specs.Texts.{three_bytes, three_text, bad_bytes, bad_text};

use text::{NEWLINE, SPACE};

// Three numbers on a line: what a request or a clump prints. Answers with the place behind it.
pub fn three(out: &mut [u8], at: usize, a: u64, b: u64, c: u64) -> usize
    requires { at + three_bytes ≤ length out.old }
    ensures wrote { Wrote out.old at (three_text a b c) out.new result }
    ensures upper_bound { result ≤ at + three_bytes }
{
    let i = text::number(out, at, a, SPACE);
    let j = text::number(out, i, b, SPACE);
    text::number(out, j, c, NEWLINE)
}

// What a line prints that is none of the program's.
pub fn question(out: &mut [u8], at: usize) -> usize
    requires { at + bad_bytes ≤ length out.old }
    ensures wrote { Wrote out.old at bad_text out.new result }
    ensures upper_bound { result ≤ at + bad_bytes }
{
    text::bytes(out, at, b"?\n")
}
