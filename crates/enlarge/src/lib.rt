// Grow: a live clump made larger where it stands, by the FREE clump behind it. It takes any bytes, any numbers and any fuse.
#![tactic(auto)]

ghost use Rattle.std.specs.Prelude.{◌+◌, length};
ghost use Rattle.rules.specs.declared.Request.TheVariants.{Grow};
ghost use Rattle.rules.specs.Words.{mem};
ghost use Rattle.rules.specs.Clumps.{head};
ghost use Rattle.rules.specs.Answers.{granted};
ghost use Rattle.rules.specs.Stores.{need_of, grow_stores};
ghost use Rattle.rules.specs.Requests.{grown, Does};
ghost use Rattle.rules.specs.Reading.{clumps_of};
ghost use Rattle.need.specs.Fits.{Fit};
ghost use Rattle.enlarge.specs.Enlarging.{Growing};
ghost use Rattle.steps.specs.Acts.{Acts};

use answer::Refusal;
use page::clump::Clump;
use rules::Answer;
use word::Fuse;

// The clump at h with what it needs of both together: the rest's header first, if there is one, then its own nbytes.
fn extend(img: &mut [u8], h: usize, both: u64, size: u64, offset: u64, fuse: u64) -> Answer
    requires { Fit (length img.old) (need_of size) h both }
    ensures { Acts img.old (granted offset (grow_stores (need_of size) h both)) fuse img.new result }
{
    let need = need::need_of(size);
    let mut p = Fuse::new(fuse);
    if need::is_split(both, need) {
        steps::head_rest(img, &mut p, h + need as usize, both - need);
        p.store(img, h, need);
    } else {
        p.store(img, h, both);
    }
    answer::finish(p.power, offset)
}

// Grow, of the clump at h.
fn grow_at(img: &mut [u8], h: usize, offset: u64, size: u64, fuse: u64) -> Answer
    requires { Growing img.old offset size h }
    ensures { Acts img.old (grown (clumps_of img.old) offset size (head (mem img.old) h)) fuse img.new result }
{
    let c = Clump::read(img, h);
    if !seen::header::waits(c.state) {
        return Answer::from(Refusal::WrongState);
    }
    if size <= c.nbytes - Clump::HEADER {
        return answer::unstored(Answer::DONE, offset, 0);
    }
    let both = c.nbytes + walk::free_bytes(img, h + c.nbytes as usize);
    if !need::room(both, size) {
        return Answer::from(Refusal::NoRoom);
    }
    extend(img, h, both, size, offset, fuse)
}

pub fn grow(img: &mut [u8], offset: u64, size: u64, fuse: u64) -> Answer
    ensures { Does img.old (Grow offset size) fuse img.new result }
{
    if let Err(refusal) = survey::survey(img) {
        return Answer::from(refusal);
    }
    if size == 0 {
        return Answer::from(Refusal::SizeZero);
    }
    let Some(found) = walk::find(img, offset) else {
        return Answer::from(Refusal::NoClump);
    };
    grow_at(img, found.at, offset, size, fuse)
}
