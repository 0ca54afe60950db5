// Recover: the unfinished clump finished, RESERVED clumps released, runs of FREE clumps joined. Takes any bytes and any fuse.
#![tactic(auto)]

ghost use Rattle.std.specs.Prelude.{◌≡◌, cond, [], ◌∷◌, ◌+◌, ◌%◌, ◌≤◌, ◌<◌, length, eqb};
ghost use Rattle.std.proofs.Math.Option.{none};
ghost use Rattle.rules.specs.declared.Request.TheVariants.{Recover};
ghost use Rattle.rules.specs.Lists.{seek};
ghost use Rattle.rules.specs.Words.{word_bytes, word_values, mem, store};
ghost use Rattle.rules.specs.Clumps.{header_bytes, is_pending, state_at, RESERVED, FREE};
ghost use Rattle.rules.specs.Sound.{target_fault};
ghost use Rattle.rules.specs.Stores.{finishing, releasing, runs, joining};
ghost use Rattle.rules.specs.Requests.{Does};
ghost use Rattle.rules.specs.Reading.{clumps_of, Tiled};
ghost use Rattle.word.specs.Runs.{Ran};
ghost use Rattle.page.specs.Forms.{head_of};
ghost use Rattle.seen.specs.Forms.{offset_in};
ghost use Rattle.mend.specs.Passes.{OpenRun, sum_of, open_store, open_next};

use page::clump::Clump;
use page::{CLUMPS_AT, entry};
use rules::Answer;
use word::Fuse;

// "finish the ACTIVATING clump (assign, empty the list, ACTIVE) or the FREEING one (assign, FREE)": the one at that place, if there is one.
#[tactic(auto, using(crate::specs::Recovering::pending_in, crate::specs::Recovering::pending_even))]
fn finish_pending(img: &mut [u8], p: &mut Fuse, pending: Option<usize>)
    requires tiled { Tiled img.old }
    requires unfinished { pending ≡ offset_in (seek is_pending (clumps_of img.old)) }
    requires targets_valid { target_fault (mem img.old) (clumps_of img.old) ≡ none }
    ensures { Ran img.old p.old.power (finishing (mem img.old) (seek is_pending (clumps_of img.old))) img.new p.new.power }
{
    let Some(h) = pending else {
        return;
    };
    let c = Clump::read(img, h);
    let l = Clump::list(img, h);
    let due = entry::due(c.state, l);
    if c.state == Clump::ACTIVATING {
        steps::finish_activating(img, p, h, due);
    } else {
        steps::finish_freeing(img, p, h, due);
    }
}

// RESERVED to FREE, and no store to a clump in any other state.
fn free_reserved(img: &mut [u8], p: &mut Fuse, c: Clump)
    requires in_image { c.at + header_bytes ≤ length img.old }
    requires aligned { c.at % word_bytes ≡ 0 }
    ensures { Ran img.old p.old.power (cond (eqb c.state RESERVED) (store (state_at c.at) FREE ∷ []) []) img.new p.new.power }
{
    if c.state == Clump::RESERVED {
        p.store(img, c.at + 8, Clump::FREE);
    }
}

// "then each RESERVED to FREE, upward". It goes by offsets, as `join_runs` does: while it stores, nothing else can hold the image.
fn release_reserved(img: &mut [u8], p: &mut Fuse)
    requires tiled { Tiled img.old }
    ensures { Ran img.old p.old.power (releasing (clumps_of img.old)) img.new p.new.power }
{
    let mut h: usize = CLUMPS_AT;
    while h < img.len() {
        let c = Clump::read(img, h);
        free_reserved(img, p, c);
        h += c.nbytes as usize;
    }
}

// The run of FREE clumps that a walk is in: where it starts, nbytes of its first clump, and the sum so far.
#[derive(Clone, Copy)]
pub struct Open {
    pub first: usize,
    pub own: u64,
    pub sum: u64,
}

// The run that the walk is in after one clump more, if it is in one.
fn next_run(run: Option<Open>, c: Clump) -> Option<Open>
    requires { sum_of run + c.nbytes < word_values }
    ensures { result ≡ open_next run (head_of c) }
{
    if c.state != Clump::FREE {
        return None;
    }
    match run {
        None => Some(Open {
            first: c.at,
            own: c.nbytes,
            sum: c.nbytes,
        }),
        Some(r) => Some(Open {
            sum: r.sum + c.nbytes,
            ..r
        }),
    }
}

// The store at the end of a run that has more than its first clump: it ends where the state of the clump that comes is not FREE, and so at the
// end of the image, where the state of no FREE clump is handed over.
fn store_run(img: &mut [u8], p: &mut Fuse, run: Option<Open>, state: u64)
    requires { OpenRun (length img.old) run }
    ensures { Ran img.old p.old.power (cond (eqb state FREE) [] (open_store run)) img.new p.new.power }
{
    if state == Clump::FREE {
        return;
    }
    if let Some(r) = run {
        if r.own != r.sum {
            p.store(img, r.first, r.sum);
        }
    }
}

// "then, upward, one store for each run of touching FREE clumps, their sum to the nbytes of its first"
fn join_runs(img: &mut [u8], p: &mut Fuse)
    requires tiled { Tiled img.old }
    ensures { Ran img.old p.old.power (joining (runs (clumps_of img.old))) img.new p.new.power }
{
    let mut h: usize = CLUMPS_AT;
    let mut run: Option<Open> = None;
    while h < img.len() {
        let c = Clump::read(img, h);
        store_run(img, p, run, c.state);
        run = next_run(run, c);
        h += c.nbytes as usize;
    }
    store_run(img, p, run, Clump::ACTIVE);
}

pub fn recover(img: &mut [u8], fuse: u64) -> Answer
    ensures { Does img.old Recover fuse img.new result }
{
    let surveyed = survey::sound(img);
    if let Err(refusal) = surveyed.tests {
        return Answer::from(refusal);
    }
    let mut p = Fuse::new(fuse);
    finish_pending(img, &mut p, surveyed.seen.first);
    if p.power.cut {
        return answer::finish(p.power, 0);
    }
    release_reserved(img, &mut p);
    if p.power.cut {
        return answer::finish(p.power, 0);
    }
    join_runs(img, &mut p);
    answer::finish(p.power, 0)
}
