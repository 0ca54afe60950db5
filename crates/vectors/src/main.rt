// Runs the library on the cases of the file that its first argument names, a case a line, and prints one line for each. A line that is no
// case gets its number and `bad`. Takes any file, and assumes nothing of it. Where a read or a write fails, that is told in one line on
// standard error, and the program ends: nothing more is read, run or printed. What stands in the file and what is printed is outside
// every contract; what becomes of the bytes that were read is in the contracts of `take_all` and of the crates `case`, `trial` and
// `outcome`.
#![tactic(auto)]

ghost use Rattle.std.specs.Prelude.{◌≡◌, OnOk};
ghost use Rattle.vectors.specs.Steps.{line_next, read_on};

use case::line::{Line, Reading};
use outcome::Outcome;
use std::env::{Env, FillError};
use std::io::{Error, Read};
use std::rt::Files;
use std::{fs, io, str};
use streams::Told;

// Prints the line of a case.
fn print(rt: &(impl Print + Eprint), case: u64, ran: Option<Outcome>) -> Result<(), Told> {
    let mut out = [0u8; 288];
    let n = outcome::line(&mut out, case, ran);
    streams::write_whole(rt, &mut io::writer(rt), "standard output", &out[..n])
}

// One byte. At the end of a line its case is run and printed.
fn take(rt: &(impl Print + Eprint), l: &mut Line, b: u8) -> Result<(), Told>
    ensures { l.new ≡ line_next l.old b }
{
    if b != b'\n' {
        l.take(b);
        return Ok(());
    }
    l.put();
    let printed = print(rt, l.case, trial::run(l));
    l.start_next();
    printed
}

// The bytes of a chunk, one after the other, up to the first line that could not be printed.
fn take_all(rt: &(impl Print + Eprint), l: &mut Line, bytes: &[u8]) -> Result<(), Told>
    ensures { OnOk result (l.new ≡ read_on l.old bytes.now) }
{
    for b in bytes {
        take(rt, l, *b)?;
    }
    Ok(())
}

// A line that nothing ends is malformed.
fn end(rt: &(impl Print + Eprint), l: &Line) -> Result<(), Told> {
    match l.reading {
        Reading::Nothing if l.numbers.count == 0 => Ok(()),
        _ => print(rt, l.case, None),
    }
}

// The whole file, a chunk at a time. Only at its end is the line under way one that nothing ends; after a failure nobody knows.
// A proved loop has to end, and nothing says that a file does. So the loop counts its turns, up to a number that no run uses up.
fn read_all<I: Read>(rt: &(impl Print + Eprint), input: &mut I, path: &str) -> Result<(), Told> {
    let mut buf = [0u8; 65536];
    let mut line = Line::new(1);
    for _ in 0..u64::MAX {
        let n = streams::read_some(rt, input, path, &mut buf)?;
        if n == 0 {
            return end(rt, &line);
        }
        take_all(rt, &mut line, &buf[..n])?;
    }
    Ok(())
}

// What the system calls an argument that is not there, one that is longer than any path, and bytes that are no text.
const INVALID_ARGUMENT: i32 = 22;

const NAME_TOO_LONG: i32 = 36;

const NO_TEXT: i32 = 84;

// Runs the cases of the file of this name.
fn run(rt: &(impl Files + Print + Eprint), path: &str) {
    match fs::open(rt, path) {
        Ok(mut file) => {
            // A failure is told already, and nothing comes after it.
            let _ = read_all(rt, &mut file, path);
        }
        Err(error) => streams::fail(rt, path, error),
    }
}

fn main(rt: HostRuntime) {
    let mut name = [0u8; 4096];
    let code = match rt.arg(1, &mut name) {
        Ok(length) => {
            if let Ok(path) = str::from_utf8(&name[..length]) {
                run(&rt, path);
                return;
            }
            NO_TEXT
        }
        Err(FillError::TooLong) => NAME_TOO_LONG,
        Err(FillError::NotPresent) => INVALID_ARGUMENT,
    };
    streams::fail(&rt, "cases", Error::from_raw_os_error(code));
}
