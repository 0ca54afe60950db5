// Activate: the request that carries out the unmarked entries of a RESERVED clump's on-list; the marked ones wait for free. It takes any
// bytes, any numbers and any fuse.
#![tactic(auto)]

ghost use Rattle.std.specs.Prelude.{length};
ghost use Rattle.rules.specs.declared.Request.TheVariants.{Activate};
ghost use Rattle.rules.specs.Words.{mem};
ghost use Rattle.rules.specs.Clumps.{head};
ghost use Rattle.rules.specs.Requests.{activate, Does};
ghost use Rattle.rules.specs.Reading.{clumps_of, Tiled};
ghost use Rattle.walk.specs.Scans.{Finds};
ghost use Rattle.steps.specs.Acts.{Acts};

use answer::Refusal;
use page::clump::Clump;
use page::entry;
use rules::Answer;
use walk::Found;
use word::Fuse;

// Activate, in the clump that was found.
fn activate_at(img: &mut [u8], found: Found, offset: u64, fuse: u64) -> Answer
    requires tiled { Tiled img.old }
    requires finds { Finds (length img.old) (mem img.old) offset found.at found.below }
    ensures { Acts img.old (activate (mem img.old) (clumps_of img.old) offset (head (mem img.old) found.at)) fuse img.new result }
{
    let c = Clump::read(img, found.at);
    if c.state != Clump::RESERVED {
        return Answer::from(Refusal::WrongState);
    }
    let l = Clump::list(img, found.at);
    let due = entry::unmarked(l);
    if !walk::all_valid(img, due) {
        return Answer::from(Refusal::BadTarget);
    }
    let mut p = Fuse::new(fuse);
    p.store(img, found.at + 8, Clump::ACTIVATING);
    steps::finish_activating(img, &mut p, found.at, due);
    answer::finish(p.power, offset)
}

pub fn activate(img: &mut [u8], offset: u64, fuse: u64) -> Answer
    ensures { Does img.old (Activate offset) fuse img.new result }
{
    if let Err(refusal) = survey::survey(img) {
        return Answer::from(refusal);
    }
    let Some(found) = walk::find(img, offset) else {
        return Answer::from(Refusal::NoClump);
    };
    activate_at(img, found, offset, fuse)
}
