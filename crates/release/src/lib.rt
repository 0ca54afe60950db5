// Free: the request that carries out the on-list of an ACTIVE clump, or the marked entries of a RESERVED one, and gives the clump back, joined
// to what is FREE beside it. It takes any bytes, any numbers and any fuse.
#![tactic(auto)]

ghost use Rattle.std.specs.Prelude.{◌≡◌, ◌+◌, ◌%◌, ◌≤◌, length};
ghost use Rattle.rules.specs.declared.Request.TheVariants.{Free};
ghost use Rattle.rules.specs.Words.{word_bytes, mem};
ghost use Rattle.rules.specs.Clumps.{head, header_bytes};
ghost use Rattle.rules.specs.Answers.{granted};
ghost use Rattle.rules.specs.Stores.{free_stores};
ghost use Rattle.rules.specs.Requests.{free, Does};
ghost use Rattle.rules.specs.Reading.{clumps_of, Tiled};
ghost use Rattle.word.specs.Runs.{Ran};
ghost use Rattle.page.specs.Forms.{InImage};
ghost use Rattle.walk.specs.Forms.{list_valid};
ghost use Rattle.walk.specs.Scans.{Finds};
ghost use Rattle.steps.specs.Acts.{Acts};
ghost use Rattle.release.specs.Releases.{freed_in, drop_of, store_if, Releasing};

use answer::Refusal;
use page::clump::Clump;
use page::entry;
use rules::Answer;
use walk::Found;
use word::Fuse;

// Whether a clump in that state may be freed with that list: the targets of the entries that free carries out must be valid, of an ACTIVE
// clump all, of a RESERVED one those of the marked entries.
fn may_drop(img: &[u8], state: u64, l: [[u64; 2]; 3]) -> bool
    requires { Tiled img.now }
    ensures { result ≡ list_valid (clumps_of img.now) (freed_in state l) }
{
    if state == Clump::ACTIVE {
        walk::all_valid(img, l)
    } else {
        walk::all_valid(img, entry::marked(l))
    }
}

// One store, if there is a clump to join.
fn store_if(img: &mut [u8], p: &mut Fuse, bytes: u64, at: usize, w: u64)
    requires in_image { (bytes ≡ 0 → ⊥) → at + word_bytes ≤ length img.old }
    requires aligned { (bytes ≡ 0 → ⊥) → at % word_bytes ≡ 0 }
    ensures { Ran img.old p.old.power (store_if bytes at w) img.new p.new.power }
{
    if bytes != 0 {
        p.store(img, at, w);
    }
}

// What free stores to the clump itself. The unmarked entries of a RESERVED clump were never due: they are emptied before it goes FREEING,
// since a FREEING clump carries out whatever is used.
fn drop_list(img: &mut [u8], p: &mut Fuse, c: Clump, l: [[u64; 2]; 3])
    requires in_image { c.at + header_bytes ≤ length img.old }
    requires aligned { c.at % word_bytes ≡ 0 }
    requires targets_in_image { InImage (length img.old) (freed_in c.state l) }
    ensures { Ran img.old p.old.power (drop_of c.at c.state l) img.new p.new.power }
{
    let marked = entry::marked(l);
    if c.state == Clump::ACTIVE {
        steps::carry_out(img, p, c.at, l);
    } else if entry::reach(marked) == 0 {
        p.store(img, c.at + 8, Clump::FREE);
    } else {
        steps::empty_used(img, p, c.at, entry::unmarked(l));
        steps::carry_out(img, p, c.at, marked);
    }
}

// The clump freed, and joined to the clumps beside it that are FREE: the next one, at its end, and the one below.
fn release(
    img: &mut [u8],
    below: usize,
    c: Clump,
    l: [[u64; 2]; 3],
    offset: u64,
    fuse: u64,
) -> Answer
    requires { Releasing img.old offset below c l }
    ensures { Acts img.old (granted offset (free_stores (mem img.old) (clumps_of img.old) (head (mem img.old) c.at))) fuse img.new result }
{
    let next = walk::free_bytes(img, c.at + c.nbytes as usize);
    let under = walk::free_bytes(img, below);
    let both = c.nbytes + next;
    let all = under + both;
    let mut p = Fuse::new(fuse);
    drop_list(img, &mut p, c, l);
    store_if(img, &mut p, next, c.at, both);
    store_if(img, &mut p, under, below, all);
    answer::finish(p.power, offset)
}

// Free, in the clump that was found.
fn free_at(img: &mut [u8], found: Found, offset: u64, fuse: u64) -> Answer
    requires tiled { Tiled img.old }
    requires finds { Finds (length img.old) (mem img.old) offset found.at found.below }
    ensures { Acts img.old (free (mem img.old) (clumps_of img.old) offset (head (mem img.old) found.at)) fuse img.new result }
{
    let c = Clump::read(img, found.at);
    if !seen::header::waits(c.state) {
        return Answer::from(Refusal::WrongState);
    }
    let l = Clump::list(img, found.at);
    if !may_drop(img, c.state, l) {
        return Answer::from(Refusal::BadTarget);
    }
    release(img, found.below, c, l, offset, fuse)
}

pub fn free(img: &mut [u8], offset: u64, fuse: u64) -> Answer
    ensures { Does img.old (Free offset) fuse img.new result }
{
    if let Err(refusal) = survey::survey(img) {
        return Answer::from(refusal);
    }
    let Some(found) = walk::find(img, offset) else {
        return Answer::from(Refusal::NoClump);
    };
    free_at(img, found, offset, fuse)
}
