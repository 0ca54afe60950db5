// The need of a size, header and all: whether so many bytes have room for it, whether they are split for it, and the need itself where it fits.
// Any size may be asked: no sum is made that could wrap. No function sees an image.
#![tactic(auto)]

ghost use Rattle.std.specs.Prelude.{◌≡◌, ◌<◌, ◌≤◌, leb};
ghost use Rattle.rules.specs.Words.{word_values};
ghost use Rattle.rules.specs.Stores.{need_of, is_split};

use page::clump::Clump;

// Whether need, which may lie past 64 bits, is at most nbytes: it is never computed.
#[tactic(auto, using(laws::specs::Needs::need_small, laws::specs::Needs::need_room))]
pub fn room(nbytes: u64, size: u64) -> bool
    ensures { result ≡ leb (need_of size) nbytes }
{
    Clump::HEADER <= nbytes && size <= (nbytes - Clump::HEADER) / 64 * 64
}

// Whether so many bytes are split for a need: the rest is a clump of its own.
pub fn is_split(size: u64, need: u64) -> bool
    requires { need ≤ size }
    ensures { result ≡ is_split need size }
{
    Clump::LEAST <= size - need
}

// need, where it fits.
#[tactic(auto, unfolding(rules::specs::Stores::need_of))]
pub fn need_of(size: u64) -> u64
    requires { need_of size < word_values }
    ensures { result ≡ need_of size }
{
    Clump::HEADER + size.next_multiple_of(64)
}
