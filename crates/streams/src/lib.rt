// Reading and writing, so that no failure goes by unnoticed: it is told in one line on standard error, which names what failed and
// why. A call that a signal interrupts is made again, and a write that takes only a part goes on with the rest.
// Takes any reader and any writer, and assumes of them what std says of each. Where a type says which bytes it gives or holds, the
// contracts say which of them were read or written; of a descriptor's nobody can say that.
#![tactic(auto)]

ghost use Rattle.std.specs.Prelude.{◌≡◌, ℕ, ◌<◌, ◌≤◌, length, take, IfOk, OnOk};
ghost use Rattle.std.specs.Io.KnownBytes.{Appends, Consumes, IsAtEnd};
ghost use Rattle.std.specs.Result.{result_unwrap_or};

use std::fmt::InlineText;
use std::io::{Error, ErrorKind, Read, Write};

// The failure of a read or a write, which is told already on standard error.
#[derive(Clone, Copy, Debug, PartialEq, Eq)]
pub struct Told;

// Tells on standard error what failed and why. What the system says of an error stands in front of its number, which is left out.
pub fn fail(rt: &impl Eprint, what: &str, error: Error) {
    let text = InlineText::<256>::of(&error);
    let all = text.as_str();
    let why = match all.split_once(" (os error ") {
        Some((said, _)) => said,
        None => all,
    };
    // Where this cannot be written either, nobody is left to be told.
    let _ = eprintln!(rt; "{what}: {why}");
}

// Whether the call that just failed was only interrupted.
fn interrupted(error: &Error) -> bool {
    error.kind() == ErrorKind::Interrupted
}

// Reads once, and answers with how many bytes came: none at the end of the input. `what` is the name that a failure is told under; a
// read that failed took nothing. A proved loop has to end, so that it counts its turns, up to a number that no run uses up.
pub fn read_some<I: Read>(
    rt: &impl Eprint,
    input: &mut I,
    what: &str,
    chunk: &mut [u8],
) -> Result<usize, Told>
    ensures within { result_unwrap_or result 0 ≤ length chunk.new }
    ensures part { result_unwrap_or result 0 ≡ length (take (result_unwrap_or result 0) chunk.new) }
    ensures bytes { Consumes (I.remaining input.old) (I.remaining input.new) (take (result_unwrap_or result 0) chunk.new) }
    ensures end { IfOk result (λ n. n ≡ 0 → 0 < length chunk.old → IsAtEnd (I.remaining input.new)) }
{
    let mut why = Error::from(ErrorKind::Interrupted);
    for _ in 0..u64::MAX {
        match input.read(chunk) {
            Ok(count) => return Ok(count),
            Err(error) => why = error,
        }
        if !interrupted(&why) {
            break;
        }
    }
    fail(rt, what, why);
    Err(Told)
}

// Writes a part, and answers with how many bytes were taken. One that takes nothing counts as failed, and one that failed took nothing.
fn write_some<O: Write>(
    rt: &impl Eprint,
    output: &mut O,
    what: &str,
    bytes: &[u8],
) -> Result<usize, Told>
    ensures within { result_unwrap_or result 0 ≤ length bytes.now }
    ensures part { result_unwrap_or result 0 ≡ length (take (result_unwrap_or result 0) bytes.now) }
    ensures bytes { Appends (O.contents output.old) (O.contents output.new) (take (result_unwrap_or result 0) bytes.now) }
    ensures some { IfOk result (λ n. 0 < n) }
{
    let mut why = Error::from(ErrorKind::Interrupted);
    for _ in 0..u64::MAX {
        match output.write(bytes) {
            Ok(0) => why = Error::from(ErrorKind::WriteZero),
            Ok(put) => return Ok(put),
            Err(error) => why = error,
        }
        if !interrupted(&why) {
            break;
        }
    }
    fail(rt, what, why);
    Err(Told)
}

// Writes all of the bytes. The library's `write_all` doesn't say that what a failed one wrote is the first of them.
pub fn write_whole<O: Write>(
    rt: &impl Eprint,
    output: &mut O,
    what: &str,
    bytes: &[u8],
) -> Result<(), Told>
    ensures whole { OnOk result (Appends (O.contents output.old) (O.contents output.new) bytes.now) }
    ensures part { (n : ℕ) × Appends (O.contents output.old) (O.contents output.new) (take n bytes.now) }
{
    let mut rest = bytes;
    while !rest.is_empty() {
        let put = write_some(rt, output, what, rest)?;
        rest = &rest[put..];
    }
    Ok(())
}
