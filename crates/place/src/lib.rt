// Reserve: the first FREE clump that is large enough, split or whole. Takes any bytes, any size and any fuse.
#![tactic(auto)]

ghost use Rattle.std.specs.Prelude.{◌≡◌, ◌∷◌, ◌++◌, ◌+◌, ◌%◌, ◌≤◌, length};
ghost use Rattle.rules.specs.Words.{word_bytes, mem, store};
ghost use Rattle.rules.specs.Clumps.{head, header_bytes, least_clump, slots, RESERVED};
ghost use Rattle.rules.specs.Answers.{granted};
ghost use Rattle.rules.specs.Stores.{emptying, need_of, rest_header, cleared_words, taking, reserve_stores};
ghost use Rattle.rules.specs.Requests.{Does, reserving};
ghost use Rattle.word.specs.Runs.{Ran};
ghost use Rattle.steps.specs.Acts.{Acts};
ghost use Rattle.need.specs.Fits.{Fit};

use answer::Refusal;
use page::clump::Clump;
use rules::Answer;
use word::Fuse;

// How many words of its body reserve clears, of a clump of so many bytes: all of them, or none in the form that keeps the old rule.
#[tactic(auto, unfolding(rules::specs::Stores::cleared_words))]
fn cleared_words(size: usize, clears: bool) -> usize
    requires { least_clump ≤ size }
    ensures { result ≡ cleared_words clears size }
{
    if clears { (size - 64) / 8 } else { 0 }
}

// What ends both ways, once the clump has its size: its body cleared, then its state.
#[tactic(auto, using(laws::specs::Clearing::cleared_room))]
fn take(img: &mut [u8], p: &mut Fuse, h: usize, size: usize, clears: bool)
    requires has_a_body { least_clump ≤ size }
    requires in_image { h + size ≤ length img.old }
    requires aligned { h % word_bytes ≡ 0 }
    ensures { Ran img.old p.old.power (taking clears h size) img.new p.new.power }
{
    steps::zero_words(img, p, h + 64, cleared_words(size, clears));
    p.store(img, h + 8, Clump::RESERVED);
}

// The rest's header first, then the chosen clump's targets and size, its body and its state.
fn split_off(img: &mut [u8], p: &mut Fuse, h: usize, need: usize, rest: u64, clears: bool)
    requires has_a_body { least_clump ≤ need }
    requires rest_in_image { h + need + header_bytes ≤ length img.old }
    requires aligned { h % word_bytes ≡ 0 }
    requires rest_aligned { need % word_bytes ≡ 0 }
    ensures { Ran img.old p.old.power (rest_header (h + need) rest ++ (emptying (slots h) ++ (store h need ∷ taking clears h need))) img.new p.new.power }
{
    steps::head_rest(img, p, h + need, rest);
    steps::empty_targets(img, p, h);
    p.store(img, h, need as u64);
    take(img, p, h, need, clears);
}

// The whole clump: its targets, all of its body and its state.
fn take_whole(img: &mut [u8], p: &mut Fuse, h: usize, size: usize, clears: bool)
    requires has_a_body { least_clump ≤ size }
    requires in_image { h + size ≤ length img.old }
    requires aligned { h % word_bytes ≡ 0 }
    ensures { Ran img.old p.old.power (emptying (slots h) ++ taking clears h size) img.new p.new.power }
{
    steps::empty_targets(img, p, h);
    take(img, p, h, size, clears);
}

// Reserve, in the clump that was found.
fn reserve_at(img: &mut [u8], h: usize, size: u64, clears: bool, fuse: u64) -> Answer
    requires { Fit (length img.old) (need_of size) h (mem img.old h) }
    ensures { Acts img.old (granted (h + header_bytes) (reserve_stores clears (need_of size) (head (mem img.old) h))) fuse img.new result }
{
    let n = word::get(img, h);
    let need = need::need_of(size);
    let mut p = Fuse::new(fuse);
    if need::is_split(n, need) {
        split_off(img, &mut p, h, need as usize, n - need, clears);
    } else {
        take_whole(img, &mut p, h, n as usize, clears);
    }
    answer::finish(p.power, h as u64 + Clump::HEADER)
}

// Reserve, in the form that clears the body or in the one that does not.
pub fn reserve(img: &mut [u8], size: u64, clears: bool, fuse: u64) -> Answer
    ensures { Does img.old (reserving clears size) fuse img.new result }
{
    if let Err(refusal) = survey::survey(img) {
        return Answer::from(refusal);
    }
    if size == 0 {
        return Answer::from(Refusal::SizeZero);
    }
    let h = walk::first_fit(img, size);
    if img.len() <= h {
        return Answer::from(Refusal::NoRoom);
    }
    reserve_at(img, h, size, clears, fuse)
}
