// A fuse that burns, and the one function that stores a word while it lasts: "It carries a fuse, the number of stores that
// the power lasts for".
// Asks that the word lies in the image, at an offset that is divisible by 8.
ghost use Rattle.std.specs.Prelude.{◌≡◌, cond, [], ◌∷◌, ◌+◌, ◌%◌, ◌≤◌, ◌<◌, min, eqb, length};
ghost use Rattle.rules.specs.Words.{word_bytes, word_values, store};

use crate::{Power, set, witness};

// The power of a request under way. What it made and what it has left stay together below 2^64, as they are when it is lit, so that no count
// wraps.
#[derive(Drop)]
pub struct Fuse {
    pub power: Power,
    pub ghost lasts: { power.made + power.left < word_values },
}

// The lowest offset stored to, with one more. Where nothing was stored yet, as an end of 0 says, it is that one.
fn lowest(from: u64, to: u64, at: u64) -> u64
    ensures { result ≡ cond (eqb to 0) at (min from at) }
{
    if to == 0 { at } else { from.min(at) }
}

impl Fuse {
    ghost use Rattle.word.specs.Runs.{full, Ran};

    // The fuse at the start of a request.
    pub fn new(stores: u64) -> Self
        ensures { result.power ≡ full stores }
    {
        Fuse {
            power: Power::new(stores),
        }
    }

    // "while the fuse lasts it writes one word and takes one from the fuse, else it writes nothing"
    pub fn store(&mut self, img: &mut [u8], at: usize, w: u64)
        requires in_image { at + word_bytes ≤ length img.old }
        requires aligned { at % word_bytes ≡ 0 }
        ensures { Ran img.old self.old.power (store at w ∷ []) img.new self.new.power }
    {
        let p = self.power;
        let from = lowest(p.from, p.to, at as u64);
        let to = p.to.max(at as u64 + 8);
        if p.left == 0 {
            self.power.cut = true;
            return;
        }
        set(img, at, w);
        witness();
        self.power = Power {
            left: p.left - 1,
            made: p.made + 1,
            from,
            to,
            ..p
        };
    }
}
