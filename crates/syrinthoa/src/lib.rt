// The library for C: one exported function for each request of the pool, under the names and with the answers of include/syrinthoa.h.
// Assumes of a caller what C always owes: that `length` bytes at `img` are the caller's to lend, also none of them. Any bytes, numbers and
// fuse will do; the contracts are those of `pool`.
#![tactic(auto)]

ghost use Rattle.rules.specs.declared.Request.TheVariants.{Create, Reserve, ReserveUncleared, Grow, Onactive, Onfree, Withdraw, Activate, Free, Recover};
ghost use Rattle.rules.specs.Requests.{Does};
ghost use Rattle.survey.specs.Checking.{Checks};

use rules::Answer;
use survey::Checked;

#[unsafe(no_mangle)]
pub extern "C" fn syrinthoa_create(img: &mut [u8], fuse: u64) -> Answer
    ensures { Does img.old Create fuse img.new result }
{
    pool::create(img, fuse)
}

#[unsafe(no_mangle)]
pub extern "C" fn syrinthoa_reserve(img: &mut [u8], size: u64, fuse: u64) -> Answer
    ensures { Does img.old (Reserve size) fuse img.new result }
{
    pool::reserve(img, size, fuse)
}

#[unsafe(no_mangle)]
pub extern "C" fn syrinthoa_reserve_uncleared(img: &mut [u8], size: u64, fuse: u64) -> Answer
    ensures { Does img.old (ReserveUncleared size) fuse img.new result }
{
    pool::reserve_uncleared(img, size, fuse)
}

#[unsafe(no_mangle)]
pub extern "C" fn syrinthoa_grow(img: &mut [u8], offset: u64, size: u64, fuse: u64) -> Answer
    ensures { Does img.old (Grow offset size) fuse img.new result }
{
    pool::grow(img, offset, size, fuse)
}

#[unsafe(no_mangle)]
pub extern "C" fn syrinthoa_onactive(
    img: &mut [u8],
    offset: u64,
    target: u64,
    value: u64,
    fuse: u64,
) -> Answer
    ensures { Does img.old (Onactive offset target value) fuse img.new result }
{
    pool::onactive(img, offset, target, value, fuse)
}

#[unsafe(no_mangle)]
pub extern "C" fn syrinthoa_onfree(
    img: &mut [u8],
    offset: u64,
    target: u64,
    value: u64,
    fuse: u64,
) -> Answer
    ensures { Does img.old (Onfree offset target value) fuse img.new result }
{
    pool::onfree(img, offset, target, value, fuse)
}

#[unsafe(no_mangle)]
pub extern "C" fn syrinthoa_withdraw(img: &mut [u8], offset: u64, fuse: u64) -> Answer
    ensures { Does img.old (Withdraw offset) fuse img.new result }
{
    pool::withdraw(img, offset, fuse)
}

#[unsafe(no_mangle)]
pub extern "C" fn syrinthoa_activate(img: &mut [u8], offset: u64, fuse: u64) -> Answer
    ensures { Does img.old (Activate offset) fuse img.new result }
{
    pool::activate(img, offset, fuse)
}

#[unsafe(no_mangle)]
pub extern "C" fn syrinthoa_free(img: &mut [u8], offset: u64, fuse: u64) -> Answer
    ensures { Does img.old (Free offset) fuse img.new result }
{
    pool::free(img, offset, fuse)
}

#[unsafe(no_mangle)]
pub extern "C" fn syrinthoa_check(img: &[u8]) -> Checked
    ensures { Checks img.now result }
{
    pool::check(img)
}

#[unsafe(no_mangle)]
pub extern "C" fn syrinthoa_recover(img: &mut [u8], fuse: u64) -> Answer
    ensures { Does img.old Recover fuse img.new result }
{
    pool::recover(img, fuse)
}
