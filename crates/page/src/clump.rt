// A clump's header as the code sees it: where it stands, nbytes, state and the on-list. Asks that the header lies in the image.
ghost use Rattle.std.specs.Prelude.{◌≡◌, ◌+◌, ◌%◌, ◌≤◌, length};
ghost use Rattle.rules.specs.Words.{mem, word_bytes};
ghost use Rattle.rules.specs.Clumps.{header_bytes, state_at};
ghost use Rattle.page.specs.Forms.{list_at};

#[derive(Clone, Copy)]
pub struct Clump {
    pub at: usize,
    pub nbytes: u64,
    pub state: u64,
}

impl Clump {
    pub const FREE: u64 = 0;

    pub const RESERVED: u64 = 1;

    pub const ACTIVATING: u64 = 2;

    pub const ACTIVE: u64 = 3;

    pub const FREEING: u64 = 4;

    // The header's length, and the least clump's.
    pub const HEADER: u64 = 64;

    pub const LEAST: u64 = 128;

    // The header at an offset.
    pub fn read(img: &[u8], at: usize) -> Clump
        requires in_image { at + header_bytes ≤ length img.now }
        requires aligned { at % word_bytes ≡ 0 }
        ensures at { result.at ≡ at }
        ensures nbytes { result.nbytes ≡ mem img.now at }
        ensures state { result.state ≡ mem img.now (state_at at) }
    {
        Clump {
            at,
            nbytes: word::get(img, at),
            state: word::get(img, at + 8),
        }
    }

    // The three entries of the on-list, each a target word as it is stored, and a value.
    pub fn list(img: &[u8], at: usize) -> [[u64; 2]; 3]
        requires in_image { at + header_bytes ≤ length img.now }
        requires aligned { at % word_bytes ≡ 0 }
        ensures { result ≡ list_at (mem img.now) at }
    {
        let t0 = word::get(img, at + 16);
        let v0 = word::get(img, at + 24);
        let t1 = word::get(img, at + 32);
        let v1 = word::get(img, at + 40);
        let t2 = word::get(img, at + 48);
        let v2 = word::get(img, at + 56);
        [[t0, v0], [t1, v1], [t2, v2]]
    }
}
