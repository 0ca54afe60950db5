// Words of a lent image, and the power that a request has to store them; `fuse` has the one function that stores one while the fuse lasts.
// `get` and `store` ask for an offset that is divisible by 8 and lies in the image: their callers have judged the image first.
#![tactic(auto)]

ghost use Rattle.std.specs.Prelude.{◌≡◌, ◌+◌, ◌%◌, ◌≤◌, length};
ghost use Rattle.rules.specs.Words.{word_bytes, put, mem};
ghost use Rattle.word.specs.Runs.{full};

pub mod fuse;

pub use fuse::Fuse;

// The word at an offset.
pub fn get(img: &[u8], at: usize) -> u64
    requires in_image { at + word_bytes ≤ length img.now }
    requires aligned { at % word_bytes ≡ 0 }
    ensures { result ≡ mem img.now at }
{
    let bytes: [u8; 8] = img[at..at + 8].try_into().unwrap();
    u64::from_le_bytes(bytes)
}

// One word put.
fn set(img: &mut [u8], at: usize, w: u64)
    requires { at + word_bytes ≤ length img.old }
    ensures { img.new ≡ put img.old at w }
{
    img[at..at + 8].copy_from_slice(&w.to_le_bytes());
}

// The power that a request has: how many stores the fuse still lasts for, how many were made, and whether one was asked for in vain; and
// what is to be flushed of those made: from the lowest offset up to the one just past the highest, both 0 before the first.
#[derive(Clone, Copy)]
pub struct Power {
    pub left: u64,
    pub made: u64,
    pub cut: bool,
    pub from: u64,
    pub to: u64,
}

impl Power {
    // The power at the start of a request.
    pub fn new(fuse: u64) -> Self
        ensures { result ≡ full fuse }
    {
        Self {
            left: fuse,
            made: 0,
            cut: false,
            from: 0,
            to: 0,
        }
    }
}

// An instruction of the processor that changes nothing, and of which the optimizer is told nothing. For all that it can tell the instruction
// looks at the image, which is the caller's memory: so each word before it is stored by then, and none behind it. docs/HEARD.md has the rest.
fn witness() {
    std::hint::spin_loop();
}
