// The runs of stores that requests are made of, each through the one store function of the fuse that burns.
// A run asks that its words lie in the image, which its caller has judged, and says what it leaves by `Ran`. Those that take a list go by its
// used entries: of a list that is carried out in part they are handed the entries that are chosen, the others empty.
#![tactic(auto)]

ghost use Rattle.std.specs.Prelude.{◌≡◌, [], ◌∷◌, ◌++◌, ◌+◌, ◌*◌, ◌%◌, ◌≤◌, length};
ghost use Rattle.rules.specs.Words.{word_bytes, store, zeros};
ghost use Rattle.rules.specs.Clumps.{header_bytes, slots, state_at, ACTIVE, FREEING, FREE};
ghost use Rattle.rules.specs.Stores.{emptying, rest_header};
ghost use Rattle.word.specs.Runs.{Ran};
ghost use Rattle.page.specs.Forms.{InImage};
ghost use Rattle.steps.specs.Lists.{assigns_of, empties_of};

use page::clump::Clump;
use page::entry;
use word::Fuse;

// 0 to each of `count` words from `from` on, upward.
pub fn zero_words(img: &mut [u8], p: &mut Fuse, from: usize, count: usize)
    requires aligned { from % word_bytes ≡ 0 }
    requires in_image { from + word_bytes * count ≤ length img.old }
    ensures { Ran img.old p.old.power (zeros from count) img.new p.new.power }
{
    for i in 0..count {
        p.store(img, from + 8 * i, 0);
    }
}

// 0 to the three targets of the clump at h.
pub fn empty_targets(img: &mut [u8], p: &mut Fuse, h: usize)
    requires in_image { h + header_bytes ≤ length img.old }
    requires aligned { h % word_bytes ≡ 0 }
    ensures { Ran img.old p.old.power (emptying (slots h)) img.new p.new.power }
{
    p.store(img, h + 16, 0);
    p.store(img, h + 32, 0);
    p.store(img, h + 48, 0);
}

// The header of a rest: its nbytes, then its state FREE.
pub fn head_rest(img: &mut [u8], p: &mut Fuse, at: usize, rest: u64)
    requires in_image { at + header_bytes ≤ length img.old }
    requires aligned { at % word_bytes ≡ 0 }
    ensures { Ran img.old p.old.power (rest_header at rest) img.new p.new.power }
{
    p.store(img, at, rest);
    p.store(img, at + 8, Clump::FREE);
}

// Each value of a used entry to its target, in list order.
pub fn assign(img: &mut [u8], p: &mut Fuse, l: [[u64; 2]; 3])
    requires { InImage (length img.old) l }
    ensures { Ran img.old p.old.power (assigns_of l) img.new p.new.power }
{
    for [target, value] in l {
        if target != 0 {
            let at = entry::target_of(target);
            p.store(img, at as usize, value);
        }
    }
}

// 0 to each used target word of the list of the clump at h, first to last.
pub fn empty_used(img: &mut [u8], p: &mut Fuse, h: usize, l: [[u64; 2]; 3])
    requires in_image { h + header_bytes ≤ length img.old }
    requires aligned { h % word_bytes ≡ 0 }
    ensures { Ran img.old p.old.power (empties_of (h + 16) l) img.new p.new.power }
{
    for (i, entry) in l.iter().enumerate() {
        if entry[0] != 0 {
            p.store(img, h + 16 + 16 * i, 0);
        }
    }
}

// "each value to its target, in list order; 0 to each used target word of the list, first to last; state ACTIVE"
pub fn finish_activating(img: &mut [u8], p: &mut Fuse, h: usize, due: [[u64; 2]; 3])
    requires in_image { h + header_bytes ≤ length img.old }
    requires aligned { h % word_bytes ≡ 0 }
    requires targets_in_image { InImage (length img.old) due }
    ensures { Ran img.old p.old.power (assigns_of due ++ (empties_of (h + 16) due ++ (store (state_at h) ACTIVE ∷ []))) img.new p.new.power }
{
    assign(img, p, due);
    empty_used(img, p, h, due);
    p.store(img, h + 8, Clump::ACTIVE);
}

// "the assignments in order; state FREE"
pub fn finish_freeing(img: &mut [u8], p: &mut Fuse, h: usize, l: [[u64; 2]; 3])
    requires in_image { h + header_bytes ≤ length img.old }
    requires aligned { h % word_bytes ≡ 0 }
    requires targets_in_image { InImage (length img.old) l }
    ensures { Ran img.old p.old.power (assigns_of l ++ (store (state_at h) FREE ∷ [])) img.new p.new.power }
{
    assign(img, p, l);
    p.store(img, h + 8, Clump::FREE);
}

// "state FREEING; the assignments in order; state FREE"
pub fn carry_out(img: &mut [u8], p: &mut Fuse, h: usize, l: [[u64; 2]; 3])
    requires in_image { h + header_bytes ≤ length img.old }
    requires aligned { h % word_bytes ≡ 0 }
    requires targets_in_image { InImage (length img.old) l }
    ensures { Ran img.old p.old.power (store (state_at h) FREEING ∷ (assigns_of l ++ (store (state_at h) FREE ∷ []))) img.new p.new.power }
{
    p.store(img, h + 8, Clump::FREEING);
    finish_freeing(img, p, h, l);
}
