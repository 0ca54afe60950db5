// The clumps of an image one after the other, in the order of the walk: each is read where the one before it ends. Asks that the clumps from
// there on tile, as they do in every image that is judged sound.
ghost use Rattle.std.specs.Prelude.{◌≡◌};
ghost use Rattle.std.specs.Iterator.{YieldsFirstBy, item_count};
ghost use Rattle.rules.specs.Reading.{clumps_of, Tiled};
ghost use Rattle.page.specs.Forms.{head_of};
ghost use Rattle.walk.specs.Left.{clumps_left, Tiling};

use page::CLUMPS_AT;
use page::clump::Clump;

// The clumps of an image from an offset on.
#[derive(Drop)]
pub(crate) struct Clumps<'a> {
    img: &'a [u8],
    at: usize,
}

impl<'a> Clumps<'a> {
    // All of them.
    pub(crate) fn of(img: &'a [u8]) -> Clumps<'a>
        requires { Tiled img.now }
        ensures tile { Tiling result.img.now result.at }
        ensures all { clumps_left result.img.now result.at ≡ clumps_of img.now }
    {
        Clumps { img, at: CLUMPS_AT }
    }
}

impl Iterator for Clumps<'_> {
    type Item = Clump;

    ghost can_next = { λ s. Tiling s.img.now s.at };

    ghost next_gives = { YieldsFirstBy head_of (λ s. clumps_left s.img.now s.at) };

    ghost remaining = { item_count (λ s. clumps_left s.img.now s.at) };

    fn next(&mut self) -> Option<Clump> {
        if self.img.len() <= self.at {
            return None;
        }
        let c = Clump::read(self.img, self.at);
        self.at += c.nbytes as usize;
        Some(c)
    }
}
