// One clump by the words of its header: whether its list waits, whether it is unfinished, and the first of the faults 1 to 3. Asks for the
// image's length beside them, and for no image.
ghost use Rattle.std.specs.Prelude.{◌≡◌, ◌||◌, ◌≤◌, eqb};
ghost use Rattle.rules.specs.Clumps.{ACTIVATING, FREEING, RESERVED, ACTIVE};
ghost use Rattle.rules.specs.Sound.{size_bad, in_place};
ghost use Rattle.page.specs.Forms.{head_of, list_passes};
ghost use Rattle.seen.specs.Forms.{list_bad_in, fault_in, number_in};

use page::clump::Clump;
use page::{CLUMPS_AT, STATIC_AT, STATIC_END, entry};

// Fault 1, of a header that lies in an image of n bytes.
#[tactic(auto, using(crate::specs::Judging::size_tests))]
pub fn size_bad(n: usize, c: Clump) -> bool
    requires { c.at ≤ n }
    ensures { result ≡ size_bad n (head_of c) }
{
    c.nbytes % 64 != 0 || c.nbytes < Clump::LEAST || ((n - c.at) as u64) < c.nbytes
}

// Whether the list of a clump in that state waits: RESERVED or ACTIVE.
pub fn waits(state: u64) -> bool
    ensures { result ≡ (eqb state RESERVED || eqb state ACTIVE) }
{
    matches!(state, Clump::RESERVED | Clump::ACTIVE)
}

// Whether a clump in that state is unfinished: ACTIVATING or FREEING.
pub fn pending(state: u64) -> bool
    ensures { result ≡ (eqb state ACTIVATING || eqb state FREEING) }
{
    matches!(state, Clump::ACTIVATING | Clump::FREEING)
}

#[tactic(auto, unfolding(rules::specs::Sound::in_place))]
fn in_place(n: usize, t: u64) -> bool
    ensures { result ≡ in_place n t }
{
    t % 8 == 0
        && (walk::word_lies(STATIC_AT, STATIC_END, t)
            || walk::word_lies(CLUMPS_AT as u64, n as u64, t))
}

// Whether every used target of a list is in place.
fn all_in_place(n: usize, l: [[u64; 2]; 3]) -> bool
    ensures { result ≡ list_passes (in_place n) l }
{
    entry::all_pass(l, |t| in_place(n, t))
}

// Fault 3, by the entries that wait: all of a RESERVED or ACTIVE clump, the marked ones of an ACTIVATING one, and none of any other.
fn list_bad(n: usize, state: u64, l: [[u64; 2]; 3]) -> bool
    ensures { result ≡ list_bad_in n state l }
{
    if waits(state) {
        !all_in_place(n, l)
    } else {
        state == Clump::ACTIVATING && !all_in_place(n, entry::marked(l))
    }
}

// The first of the faults 1 to 3 in a clump.
#[tactic(auto, unfolding(crate::specs::Forms::fault_in, rules::specs::Sound::state_bad))]
pub fn fault_of(n: usize, c: Clump, l: [[u64; 2]; 3]) -> Option<u64>
    requires { c.at ≤ n }
    ensures { result ≡ number_in (fault_in n l (head_of c)) }
{
    if size_bad(n, c) {
        Some(1)
    } else if Clump::FREEING < c.state {
        Some(2)
    } else if list_bad(n, c.state, l) {
        Some(3)
    } else {
        None
    }
}
