// The program of document 01: a pool of 32,768 bytes, requests from standard input, answers on standard output.
// This file reads; `feed` gathers the bytes into lines, and the crate `obey` does what a line says and writes what is printed for it.
// Which bytes are read and written no contract can say: that is seen in the code and in the file `stdout`. Where a read or a write
// fails the program ends, and `streams` tells why in one line on standard error; a read that fails is not the end of the input.
#![tactic(auto)]

ghost use Rattle.bench.specs.Inputs.{Ended};

use feed::Held;
use streams::Told;

mod feed;

// The whole input, a chunk at a time. A proved loop has to end, and nothing says that the input does, so that it counts its turns, up
// to a number that no run uses up.
fn run(rt: &(impl Input + Print + Eprint), img: &mut [u8]) -> Result<(), Told>
    ensures { Ended img.old img.new }
{
    let mut input = rt.reader();
    let mut chunk = [0u8; 4096];
    let mut held = Held::new(u64::MAX);
    for _ in 0..u64::MAX {
        let n = streams::read_some(rt, &mut input, "standard input", &mut chunk)?;
        if n == 0 {
            break;
        }
        held.bytes(rt, img, &chunk[..n])?;
    }
    held.rest(rt, img)
}

// The pool is created silently, with a fuse that lasts. A failure that ended the run is told already.
fn main(rt: HostRuntime) {
    let mut img = [0u8; 32768];
    pool::create(&mut img, u64::MAX);
    let _ = run(&rt, &mut img);
}
