// The pool: the eleven requests of documents 01 and 02, and `ask`, which takes any of them. This is the library that an owner links.
// Every function takes any bytes, any numbers and any fuse; a refusal changes no byte. The work is done in the crates below.
#![tactic(auto)]

ghost use Rattle.rules.specs.declared.Request.TheVariants.{Create, Reserve, ReserveUncleared, Grow, Onactive, Onfree, Withdraw, Activate, Free, Recover};
ghost use Rattle.rules.specs.Requests.{Does};
ghost use Rattle.survey.specs.Checking.{Checks};

use rules::{Answer, Request};
use survey::Checked;

// A pool over whatever the image held: one FREE clump, and a static area of zeros.
pub fn create(img: &mut [u8], fuse: u64) -> Answer
    ensures { Does img.old Create fuse img.new result }
{
    create::create(img, fuse)
}

// A body of at least that size, RESERVED, and each byte of it 0. The place is the body's offset.
pub fn reserve(img: &mut [u8], size: u64, fuse: u64) -> Answer
    ensures { Does img.old (Reserve size) fuse img.new result }
{
    place::reserve(img, size, true, fuse)
}

// The same for a caller that writes every byte of the body itself: it has the bytes that it had.
pub fn reserve_uncleared(img: &mut [u8], size: u64, fuse: u64) -> Answer
    ensures { Does img.old (ReserveUncleared size) fuse img.new result }
{
    place::reserve(img, size, false, fuse)
}

// The RESERVED or ACTIVE clump made larger where it stands, if it must be and the clump behind it has the room. The bytes that it gains are
// not cleared.
pub fn grow(img: &mut [u8], offset: u64, size: u64, fuse: u64) -> Answer
    ensures { Does img.old (Grow offset size) fuse img.new result }
{
    enlarge::grow(img, offset, size, fuse)
}

// An assignment to be carried out when the RESERVED clump is activated.
pub fn onactive(img: &mut [u8], offset: u64, target: u64, value: u64, fuse: u64) -> Answer
    ensures { Does img.old (Onactive offset target value) fuse img.new result }
{
    list::onactive(img, offset, target, value, fuse)
}

// An assignment to be carried out when the ACTIVE clump is freed.
pub fn onfree(img: &mut [u8], offset: u64, target: u64, value: u64, fuse: u64) -> Answer
    ensures { Does img.old (Onfree offset target value) fuse img.new result }
{
    list::onfree(img, offset, target, value, fuse)
}

// The last assignment of the clump's list taken back.
pub fn withdraw(img: &mut [u8], offset: u64, fuse: u64) -> Answer
    ensures { Does img.old (Withdraw offset) fuse img.new result }
{
    unlist::withdraw(img, offset, fuse)
}

// The RESERVED clump made ACTIVE, with its assignments.
pub fn activate(img: &mut [u8], offset: u64, fuse: u64) -> Answer
    ensures { Does img.old (Activate offset) fuse img.new result }
{
    turn::activate(img, offset, fuse)
}

// The clump freed, an ACTIVE one with its assignments, and joined to the FREE clumps beside it.
pub fn free(img: &mut [u8], offset: u64, fuse: u64) -> Answer
    ensures { Does img.old (Free offset) fuse img.new result }
{
    release::free(img, offset, fuse)
}

// Whether the image is a sound pool, and how many bytes are in each state. It stores nothing, so that it takes no fuse.
pub fn check(img: &[u8]) -> Checked
    ensures { Checks img.now result }
{
    survey::check(img)
}

// What a power loss left, finished or undone.
pub fn recover(img: &mut [u8], fuse: u64) -> Answer
    ensures { Does img.old Recover fuse img.new result }
{
    mend::recover(img, fuse)
}

// Any of the eleven requests.
pub fn ask(img: &mut [u8], q: Request, fuse: u64) -> Answer
    ensures { Does img.old q fuse img.new result }
{
    match q {
        Request::Create => create(img, fuse),
        Request::Reserve { size } => reserve(img, size, fuse),
        Request::ReserveUncleared { size } => reserve_uncleared(img, size, fuse),
        Request::Grow { offset, size } => grow(img, offset, size, fuse),
        Request::Onactive {
            offset,
            target,
            value,
        } => onactive(img, offset, target, value, fuse),
        Request::Onfree {
            offset,
            target,
            value,
        } => onfree(img, offset, target, value, fuse),
        Request::Withdraw { offset } => withdraw(img, offset, fuse),
        Request::Activate { offset } => activate(img, offset, fuse),
        Request::Free { offset } => free(img, offset, fuse),
        Request::Check => {
            let c = check(img);
            c.answer
        }
        Request::Recover => recover(img, fuse),
    }
}
