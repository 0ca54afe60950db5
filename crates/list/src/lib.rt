// Onactive and onfree: a new entry in the on-list of a clump. Each takes any bytes, any numbers and any fuse.
#![tactic(auto)]

ghost use Rattle.std.specs.Prelude.{◌+◌, ◌<◌, length};
ghost use Rattle.rules.specs.declared.Request.TheVariants.{Onactive, Onfree};
ghost use Rattle.rules.specs.Words.{mem};
ghost use Rattle.rules.specs.Clumps.{head, bit_values};
ghost use Rattle.rules.specs.Requests.{enlist, Does};
ghost use Rattle.rules.specs.Reading.{clumps_of, Tiled};
ghost use Rattle.walk.specs.Scans.{Finds};
ghost use Rattle.steps.specs.Acts.{Acts};

use answer::Refusal;
use page::clump::Clump;
use page::entry;
use rules::Answer;
use walk::Found;
use word::Fuse;

// A new entry in the list of the clump that was found, behind the last used one, if the clump's state allows it. The mark is added only to a
// target that is valid, so that the sum does not wrap.
fn enlist_at(
    img: &mut [u8],
    found: Found,
    allowed: bool,
    offset: u64,
    target: u64,
    mark: u64,
    value: u64,
    fuse: u64,
) -> Answer
    requires tiled { Tiled img.old }
    requires finds { Finds (length img.old) (mem img.old) offset found.at found.below }
    requires one_bit { mark < bit_values }
    ensures { Acts img.old (enlist (mem img.old) (clumps_of img.old) (λ k. allowed) offset target (target + mark) value (head (mem img.old) found.at)) fuse img.new result }
{
    if !allowed {
        return Answer::from(Refusal::WrongState);
    }
    let l = Clump::list(img, found.at);
    let k = entry::reach(l);
    if k == 3 {
        return Answer::from(Refusal::ListFull);
    }
    if !walk::valid(img, target) {
        return Answer::from(Refusal::BadTarget);
    }
    let s = found.at + 16 + 16 * k;
    let stored = target + mark;
    let mut p = Fuse::new(fuse);
    p.store(img, s + 8, value);
    p.store(img, s, stored);
    answer::finish(p.power, offset)
}

pub fn onactive(img: &mut [u8], offset: u64, target: u64, value: u64, fuse: u64) -> Answer
    ensures { Does img.old (Onactive offset target value) fuse img.new result }
{
    if let Err(refusal) = survey::survey(img) {
        return Answer::from(refusal);
    }
    let Some(found) = walk::find(img, offset) else {
        return Answer::from(Refusal::NoClump);
    };
    let c = Clump::read(img, found.at);
    let allowed = c.state == Clump::RESERVED;
    enlist_at(img, found, allowed, offset, target, 0, value, fuse)
}

pub fn onfree(img: &mut [u8], offset: u64, target: u64, value: u64, fuse: u64) -> Answer
    ensures { Does img.old (Onfree offset target value) fuse img.new result }
{
    if let Err(refusal) = survey::survey(img) {
        return Answer::from(refusal);
    }
    let Some(found) = walk::find(img, offset) else {
        return Answer::from(Refusal::NoClump);
    };
    let c = Clump::read(img, found.at);
    let allowed = seen::header::waits(c.state);
    enlist_at(
        img,
        found,
        allowed,
        offset,
        target,
        entry::MARK,
        value,
        fuse,
    )
}
