// Searches over the clumps of an image, and the bytes of one that is FREE. Each search asks that the clumps tile, as they do in every image
// that is judged sound: it may be called once `judge` has found no fault. `clumps` has the clumps of an image one after the other.
#![tactic(auto)]

ghost use Rattle.std.specs.Prelude.{◌≡◌, ◌||◌, ◌+◌, ◌%◌, ◌≤◌, ◌<◌, length};
ghost use Rattle.rules.specs.Lists.{seek, any};
ghost use Rattle.rules.specs.Words.{word_bytes, mem};
ghost use Rattle.rules.specs.Clumps.{header_bytes, offset_of};
ghost use Rattle.rules.specs.Sound.{lies, holds_word, is_valid};
ghost use Rattle.rules.specs.Stores.{need_of, fits};
ghost use Rattle.rules.specs.Requests.{finding};
ghost use Rattle.rules.specs.Reading.{clumps_of, Tiled};
ghost use Rattle.page.specs.Forms.{head_of};
ghost use Rattle.walk.specs.Forms.{found_of, list_valid};
ghost use Rattle.walk.specs.Beside.{free_bytes};

mod clumps;

use crate::clumps::Clumps;
use page::clump::Clump;
use page::{CLUMPS_AT, STATIC_AT, STATIC_END, entry};

// The clump that has its body at an offset: where its header stands, and where that of the clump before it does, or 0 for the first clump, as
// W7 has it.
#[derive(Clone, Copy)]
pub struct Found {
    pub at: usize,
    pub below: usize,
}

pub fn find(img: &[u8], body: u64) -> Option<Found>
    requires { Tiled img.now }
    ensures { result ≡ found_of (finding (clumps_of img.now) body) }
{
    let mut below = 0;
    for c in Clumps::of(img) {
        if c.at as u64 + Clump::HEADER == body {
            return Some(Found { at: c.at, below });
        }
        below = c.at;
    }
    None
}

fn suits(c: Clump, size: u64) -> bool
    ensures { result ≡ fits (need_of size) (head_of c) }
{
    c.state == Clump::FREE && need::room(c.nbytes, size)
}

// "The scan stops at the first FREE clump with nbytes at least need": its header's offset, or the image's length as an end mark. (01 has this walk
// as a loop left by break.)
pub fn first_fit(img: &[u8], size: u64) -> usize
    requires { Tiled img.now }
    ensures { result ≡ offset_of (length img.now) (seek (fits (need_of size)) (clumps_of img.now)) }
{
    let mut h: usize = CLUMPS_AT;
    loop {
        if img.len() <= h {
            break img.len();
        }
        let c = Clump::read(img, h);
        if suits(c, size) {
            break h;
        }
        h += c.nbytes as usize;
    }
}

// Whether the word at t lies in a up to b. No sum is made of t, which may be any number.
pub fn word_lies(a: u64, b: u64, t: u64) -> bool
    ensures { result ≡ lies a b t }
{
    (a..b).contains(&t) && 8 <= b - t
}

// Whether the word at t lies in the body of the clump, and the clump is live. No sum is made: it is asked of the word's offset in the clump.
fn holds(c: Clump, t: u64) -> bool
    ensures { result ≡ holds_word t (head_of c) }
{
    let at = c.at as u64;
    c.state != Clump::FREE && at <= t && word_lies(Clump::HEADER, c.nbytes, t - at)
}

fn in_body(img: &[u8], t: u64) -> bool
    requires { Tiled img.now }
    ensures { result ≡ any (holds_word t) (clumps_of img.now) }
{
    Clumps::of(img).any(|c| holds(c, t))
}

// Whether a target is valid now.
#[tactic(auto, unfolding(rules::specs::Sound::is_valid))]
pub fn valid(img: &[u8], t: u64) -> bool
    requires { Tiled img.now }
    ensures { result ≡ is_valid (clumps_of img.now) t }
{
    t % 8 == 0 && (word_lies(STATIC_AT, STATIC_END, t) || in_body(img, t))
}

// Whether every used target of a list is valid now.
pub fn all_valid(img: &[u8], l: [[u64; 2]; 3]) -> bool
    requires { Tiled img.now }
    ensures { result ≡ list_valid (clumps_of img.now) l }
{
    entry::all_pass(l, |t| valid(img, t))
}

// nbytes of the clump at an offset if it is FREE, else 0; 0 also where no clump stands: at 0, below the first, and behind the last.
pub fn free_bytes(img: &[u8], at: usize) -> u64
    requires { (at ≡ 0 → ⊥) → at < length img.now → (at % word_bytes ≡ 0) × (at + header_bytes ≤ length img.now) }
    ensures { result ≡ free_bytes (length img.now) (mem img.now) at }
{
    if at == 0 || img.len() <= at {
        return 0;
    }
    let c = Clump::read(img, at);
    if c.state == Clump::FREE { c.nbytes } else { 0 }
}
