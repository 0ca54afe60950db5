// The requests as an owner in Rattle asks them who means no cut: the fuse is a constant, which the compiler sees. They are exported for
// the hearing (tests/heard) alone: with the fuse known, the optimizer has the most to drop, join and move, if anything lets it.
// `check` takes no fuse, and is not here.
#![tactic(auto)]

ghost use Rattle.rules.specs.declared.Request.TheVariants.{Create, Reserve, ReserveUncleared, Grow, Onactive, Onfree, Withdraw, Activate, Free, Recover};
ghost use Rattle.rules.specs.Requests.{Does};
ghost use Rattle.rules.specs.Cases.{longest};

use rules::Answer;

// More stores than any list has.
const LASTING: u64 = 18446744073709551615;

#[unsafe(no_mangle)]
pub extern "C" fn lasting_create(img: &mut [u8]) -> Answer
    ensures { Does img.old Create longest img.new result }
{
    pool::create(img, LASTING)
}

#[unsafe(no_mangle)]
pub extern "C" fn lasting_reserve(img: &mut [u8], size: u64) -> Answer
    ensures { Does img.old (Reserve size) longest img.new result }
{
    pool::reserve(img, size, LASTING)
}

#[unsafe(no_mangle)]
pub extern "C" fn lasting_reserve_uncleared(img: &mut [u8], size: u64) -> Answer
    ensures { Does img.old (ReserveUncleared size) longest img.new result }
{
    pool::reserve_uncleared(img, size, LASTING)
}

#[unsafe(no_mangle)]
pub extern "C" fn lasting_grow(img: &mut [u8], offset: u64, size: u64) -> Answer
    ensures { Does img.old (Grow offset size) longest img.new result }
{
    pool::grow(img, offset, size, LASTING)
}

#[unsafe(no_mangle)]
pub extern "C" fn lasting_onactive(img: &mut [u8], offset: u64, target: u64, value: u64) -> Answer
    ensures { Does img.old (Onactive offset target value) longest img.new result }
{
    pool::onactive(img, offset, target, value, LASTING)
}

#[unsafe(no_mangle)]
pub extern "C" fn lasting_onfree(img: &mut [u8], offset: u64, target: u64, value: u64) -> Answer
    ensures { Does img.old (Onfree offset target value) longest img.new result }
{
    pool::onfree(img, offset, target, value, LASTING)
}

#[unsafe(no_mangle)]
pub extern "C" fn lasting_withdraw(img: &mut [u8], offset: u64) -> Answer
    ensures { Does img.old (Withdraw offset) longest img.new result }
{
    pool::withdraw(img, offset, LASTING)
}

#[unsafe(no_mangle)]
pub extern "C" fn lasting_activate(img: &mut [u8], offset: u64) -> Answer
    ensures { Does img.old (Activate offset) longest img.new result }
{
    pool::activate(img, offset, LASTING)
}

#[unsafe(no_mangle)]
pub extern "C" fn lasting_free(img: &mut [u8], offset: u64) -> Answer
    ensures { Does img.old (Free offset) longest img.new result }
{
    pool::free(img, offset, LASTING)
}

#[unsafe(no_mangle)]
pub extern "C" fn lasting_recover(img: &mut [u8]) -> Answer
    ensures { Does img.old Recover longest img.new result }
{
    pool::recover(img, LASTING)
}
