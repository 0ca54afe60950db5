// The page test: length, signature, total size and zero padding. Asks nothing of the image.
// `clump` has the header of a clump, `entry` the entries of its list.
#![tactic(auto)]

ghost use Rattle.std.specs.Prelude.{◌≡◌, ◌≤◌, length};
ghost use Rattle.rules.specs.Words.{mem, all_zero};
ghost use Rattle.rules.specs.Pages.{clumps_at, padding_at, padding_words, right_length, is_pool};

pub mod clump;
pub mod entry;

pub const STATIC_AT: u64 = 4096;

pub const STATIC_END: u64 = 8192;

pub const HEADER_AT: usize = 12288;

pub const SIGNATURE_HIGH_AT: usize = 12296;

pub const TOTAL_AT: usize = 12304;

pub const PADDING_AT: usize = 12312;

pub const CLUMPS_AT: usize = 16384;

pub const LEAST_LENGTH: usize = 16512;

pub const MOST_LENGTH: usize = 1073741824;

// `*PMEMALLOC_POOL` and a zero byte, as two words.
pub const SIGNATURE_LOW: u64 = 5497841045243514922;

pub const SIGNATURE_HIGH: u64 = 21479300299440975;

#[tactic(auto, unfolding(rules::specs::Pages::right_length))]
pub fn right_length(n: usize) -> bool
    ensures { result ≡ right_length n }
{
    (LEAST_LENGTH..=MOST_LENGTH).contains(&n) && n % 64 == 0
}

// Whether the padding of the header page is zero, a word at a time.
fn blank_padding(img: &[u8]) -> bool
    requires { clumps_at ≤ length img.now }
    ensures { result ≡ all_zero (mem img.now) padding_at padding_words }
{
    for i in PADDING_AT / 8..CLUMPS_AT / 8 {
        if word::get(img, 8 * i) != 0 {
            return false;
        }
    }
    true
}

#[tactic(auto, using(crate::specs::Pool::right_least, crate::specs::Pool::pool_tests))]
pub fn is_pool(img: &[u8]) -> bool
    ensures { result ≡ is_pool (length img.now) (mem img.now) }
{
    right_length(img.len())
        && word::get(img, HEADER_AT) == SIGNATURE_LOW
        && word::get(img, SIGNATURE_HIGH_AT) == SIGNATURE_HIGH
        && word::get(img, TOTAL_AT) == img.len() as u64
        && blank_padding(img)
}
