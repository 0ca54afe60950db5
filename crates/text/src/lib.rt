// Text put into a buffer from a place on: a number in decimal with the byte behind it, and bytes as they are. Each answers with the
// place behind what it wrote. Asks that the buffer has room. Nothing here reads input or writes output.
#![tactic(auto)]

ghost use Rattle.std.specs.Prelude.{◌+◌, ◌≤◌, length};
ghost use Rattle.text.specs.Texts.{field_bytes, field};
ghost use Rattle.text.specs.Writing.{Wrote};

use itoa::Buffer;

pub const SPACE: u8 = 32;

pub const NEWLINE: u8 = 10;

// A number and the byte behind it.
pub fn number(out: &mut [u8], at: usize, n: u64, end: u8) -> usize
    requires { at + field_bytes ≤ length out.old }
    ensures wrote { Wrote out.old at (field n end) out.new result }
    ensures upper_bound { result ≤ at + field_bytes }
{
    let i = bytes(out, at, Buffer::new().format(n).as_bytes());
    out[i] = end;
    i + 1
}

// Bytes as they are.
pub fn bytes(out: &mut [u8], at: usize, text: &[u8]) -> usize
    requires { at + length text.now ≤ length out.old }
    ensures { Wrote out.old at text.now out.new result }
{
    let end = at + text.len();
    out[at..end].copy_from_slice(text);
    end
}
