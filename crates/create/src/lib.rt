// Create: the pages and one FREE clump. Takes any bytes and any fuse.
#![tactic(auto)]

ghost use Rattle.std.specs.Prelude.{◌+◌, ◌≤◌, length};
ghost use Rattle.rules.specs.declared.Request.TheVariants.{Create};
ghost use Rattle.rules.specs.Pages.{clumps_at};
ghost use Rattle.rules.specs.Clumps.{header_bytes};
ghost use Rattle.rules.specs.Requests.{Does};
ghost use Rattle.word.specs.Runs.{Ran};
ghost use Rattle.create.specs.Creating.{page_stores, clump_stores};

use answer::Refusal;
use rules::Answer;
use word::Fuse;

// Create's stores below the padding: the signature put out of force, the static area, the header words.
fn write_pages(img: &mut [u8], p: &mut Fuse)
    requires { clumps_at + header_bytes ≤ length img.old }
    ensures { Ran img.old p.old.power (page_stores (length img.old)) img.new p.new.power }
{
    let n = img.len() as u64;
    p.store(img, page::HEADER_AT, 0);
    steps::zero_words(img, p, page::STATIC_AT as usize, 512);
    p.store(img, page::SIGNATURE_HIGH_AT, page::SIGNATURE_HIGH);
    p.store(img, page::TOTAL_AT, n);
}

// Create's stores from the padding on: the padding, one FREE clump, and the signature in force.
fn write_clump(img: &mut [u8], p: &mut Fuse)
    requires { clumps_at + header_bytes ≤ length img.old }
    ensures { Ran img.old p.old.power (clump_stores (length img.old)) img.new p.new.power }
{
    let n = img.len() as u64;
    steps::zero_words(img, p, page::PADDING_AT, 509);
    p.store(img, page::CLUMPS_AT, n - page::CLUMPS_AT as u64);
    steps::zero_words(img, p, page::CLUMPS_AT + 8, 7);
    p.store(img, page::HEADER_AT, page::SIGNATURE_LOW);
}

#[tactic(auto, unfolding(rules::specs::Pages::right_length))]
pub fn create(img: &mut [u8], fuse: u64) -> Answer
    ensures { Does img.old Create fuse img.new result }
{
    if !page::right_length(img.len()) {
        return Answer::from(Refusal::NotAPool);
    }
    let mut p = Fuse::new(fuse);
    write_pages(img, &mut p);
    write_clump(img, &mut p);
    answer::finish(p.power, 0)
}
