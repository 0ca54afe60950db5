// The writes of the program. Each hands over what `show` has put into a buffer. Takes any answer and any image. No contract can say
// what is written: what is handed over is in the contracts of `show`.
use page::CLUMPS_AT;
use rules::Answer;
use std::io;
use streams::Told;

fn say(rt: &(impl Print + Eprint), text: &[u8]) -> Result<(), Told> {
    streams::write_whole(rt, &mut io::writer(rt), "standard output", text)
}

// The reply to a request, in one write.
pub fn reply(rt: &(impl Print + Eprint), a: Answer) -> Result<(), Told> {
    let mut out = [0u8; 64];
    let n = show::reply(&mut out, a);
    say(rt, &out[..n])
}

// The answer to a line that is none of the program's.
pub fn question(rt: &(impl Print + Eprint)) -> Result<(), Told> {
    let mut out = [0u8; 64];
    let n = show::question(&mut out);
    say(rt, &out[..n])
}

// The clumps of an image: a write when the buffer is full, and one at the end.
pub fn clumps(rt: &(impl Print + Eprint), img: &[u8]) -> Result<(), Told> {
    let mut out = [0u8; 4096];
    let mut at: usize = CLUMPS_AT;
    while show::is_left(img.len(), at) {
        let p = show::clumps(img, &mut out, at);
        say(rt, &out[..p.count])?;
        at = p.next;
    }
    Ok(())
}
