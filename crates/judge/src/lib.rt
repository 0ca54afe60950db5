// The judging of a pool: one walk over the clumps, on any bytes, and the five faults in their order, read off what it has seen. Only fault 5
// walks again, and only for a target that is not in the static area.
#![tactic(auto)]

ghost use Rattle.std.specs.Prelude.{◌≡◌, ◌%◌, ◌<◌, length};
ghost use Rattle.rules.specs.Words.{mem, word_bytes};
ghost use Rattle.rules.specs.Clumps.{head};
ghost use Rattle.rules.specs.Sound.{fault_of, judge};
ghost use Rattle.rules.specs.Reading.{clumps_of};
ghost use Rattle.seen.specs.Forms.{judged_of};
ghost use Rattle.seen.specs.States.{UpTo, takes, seen};

use page::clump::Clump;
use page::{CLUMPS_AT, entry};
use seen::{Fault, Seen};

// What was seen, with the clump at h. A header that does not lie in the image cannot have a size that does, so that no word past the end is
// read.
fn see_clump(img: &[u8], s: Seen, h: usize) -> Seen
    requires in_image { h < length img.now }
    requires aligned { h % word_bytes ≡ 0 }
    requires up_to { UpTo h s.totals }
    ensures { result ≡ takes (fault_of (length img.now) (mem img.now) (head (mem img.now) h)) s (head (mem img.now) h) }
{
    let n = img.len();
    if ((n - h) as u64) < Clump::LEAST {
        return s.fail(Fault {
            place: h,
            number: 1,
        });
    }
    s.take(n, Clump::read(img, h), Clump::list(img, h))
}

// The one walk, up to the first of the faults 1 to 3. It goes by offsets, since the clumps of any bytes need not tile.
pub fn see(img: &[u8]) -> Seen
    ensures { result ≡ seen (length img.now) (mem img.now) (clumps_of img.now) }
{
    let mut s = Seen::start();
    let mut h: usize = CLUMPS_AT;
    while h < img.len() {
        s = see_clump(img, s, h);
        if s.fault.is_some() {
            return s;
        }
        let c = Clump::read(img, h);
        h += c.nbytes as usize;
    }
    s
}

// The first fault of all, by what the walk has seen.
pub fn judge(img: &[u8], s: Seen) -> Option<Fault>
    requires { s ≡ seen (length img.now) (mem img.now) (clumps_of img.now) }
    ensures { result ≡ judged_of (judge (length img.now) (mem img.now)) }
{
    if let Some(fault) = s.fault {
        return Some(fault);
    }
    if let Some(place) = s.second {
        return Some(Fault { place, number: 4 });
    }
    let place = s.first?;
    let c = Clump::read(img, place);
    let l = Clump::list(img, place);
    let due = entry::due(c.state, l);
    if walk::all_valid(img, due) {
        None
    } else {
        Some(Fault { place, number: 5 })
    }
}
