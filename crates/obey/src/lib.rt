// What the program does with a line: it is read, obeyed, and leaves a fuse for the next. Takes any image, any line and any fuse.
// The contracts say what becomes of the image and of the fuse. What is printed is in those of `show`.
#![tactic(auto)]

ghost use Rattle.std.specs.Prelude.{◌≡◌};
ghost use Rattle.line.specs.Lines.{line_of, fuse_after};
ghost use Rattle.obey.specs.Obeying.{image_after};

use line::Line;
use streams::Told;

mod say;

// "A request prints answer, place and stores; `walk` prints offset, nbytes and state of each clump." A fuse prints nothing. Whether it
// could be printed or not, the line is obeyed.
#[tactic(auto, unfolding(crate::specs::Obeying::image_after))]
pub fn obey(rt: &(impl Print + Eprint), img: &mut [u8], l: Line, fuse: u64) -> Result<(), Told>
    ensures { img.new ≡ image_after img.old l fuse }
{
    match l {
        Line::Ask { q } => {
            let a = pool::ask(img, q, fuse);
            say::reply(rt, a)
        }
        Line::Fuse { k: _ } => Ok(()),
        Line::Walk => say::clumps(rt, img),
        Line::Bad => say::question(rt),
    }
}

// A whole line, without its newline. The fuse is then the one that the next request has, whether the line could be printed or not.
pub fn line_end(
    rt: &(impl Print + Eprint),
    img: &mut [u8],
    text: &[u8],
    fuse: &mut u64,
) -> Result<(), Told>
    ensures img_after { img.new ≡ image_after img.old (line_of text.now) fuse.old }
    ensures fuse_value { fuse.new ≡ fuse_after fuse.old (line_of text.now) }
{
    let l = line::read(text);
    let said = obey(rt, img, l, *fuse);
    *fuse = line::fuse_after(*fuse, l);
    said
}
