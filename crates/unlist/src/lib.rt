// Withdraw: the last used entry of a clump's on-list emptied. It takes any bytes, any numbers and any fuse.
#![tactic(auto)]

ghost use Rattle.std.specs.Prelude.{length};
ghost use Rattle.rules.specs.declared.Request.TheVariants.{Withdraw};
ghost use Rattle.rules.specs.Words.{mem};
ghost use Rattle.rules.specs.Clumps.{head};
ghost use Rattle.rules.specs.Requests.{withdraw, Does};
ghost use Rattle.walk.specs.Scans.{Finds};
ghost use Rattle.steps.specs.Acts.{Acts};

use answer::Refusal;
use page::clump::Clump;
use page::entry;
use rules::Answer;
use walk::Found;
use word::Fuse;

// The last used entry of the clump that was found, emptied.
fn withdraw_at(img: &mut [u8], found: Found, offset: u64, fuse: u64) -> Answer
    requires finds { Finds (length img.old) (mem img.old) offset found.at found.below }
    ensures { Acts img.old (withdraw (mem img.old) offset (head (mem img.old) found.at)) fuse img.new result }
{
    let c = Clump::read(img, found.at);
    if !seen::header::waits(c.state) {
        return Answer::from(Refusal::WrongState);
    }
    let l = Clump::list(img, found.at);
    let k = entry::reach(l);
    if k == 0 {
        return Answer::from(Refusal::ListEmpty);
    }
    let mut p = Fuse::new(fuse);
    p.store(img, found.at + 16 * k, 0);
    answer::finish(p.power, offset)
}

pub fn withdraw(img: &mut [u8], offset: u64, fuse: u64) -> Answer
    ensures { Does img.old (Withdraw offset) fuse img.new result }
{
    if let Err(refusal) = survey::survey(img) {
        return Answer::from(refusal);
    }
    let Some(found) = walk::find(img, offset) else {
        return Answer::from(Refusal::NoClump);
    };
    withdraw_at(img, found, offset, fuse)
}
