// The entries of an on-list as they are stored: bit 0 of a target word marks an onfree entry, and only a stored 0 is empty. Which entries are
// chosen goes by value: from a list, the list in which the others are empty. Asks nothing, and for no image.
ghost use Rattle.std.specs.Prelude.{◌≡◌, ℕ, Bool, ◌<◌};
ghost use Rattle.rules.specs.Words.{word_values};
ghost use Rattle.rules.specs.Clumps.{target_of, marked, unmarked};
ghost use Rattle.page.specs.Forms.{has_bit, only, only_in, due_in, reach_of, list_passes};

use crate::clump::Clump;

// Bit 0 of a target word: an entry of onfree's.
pub const MARK: u64 = 1;

// The target: the number without the mark.
#[tactic(auto, unfolding(rules::specs::Clumps::target_of))]
pub fn target_of(word: u64) -> u64
    ensures { result ≡ target_of word }
{
    word - word % 2
}

// The entry if bit 0 of its target word is the one asked for, else an empty one with its value.
fn kept(e: [u64; 2], bit: u64) -> [u64; 2]
    ensures { result ≡ only (has_bit bit) e }
{
    let [word, value] = e;
    if word % 2 == bit { e } else { [0, value] }
}

// The list with only the entries that have that bit 0; an empty one stays empty.
fn only(l: [[u64; 2]; 3], bit: u64) -> [[u64; 2]; 3]
    ensures { result ≡ only_in (has_bit bit) l }
{
    let [first, second, third] = l;
    [kept(first, bit), kept(second, bit), kept(third, bit)]
}

// The marked entries: those of onfree.
#[tactic(auto, unfolding(rules::specs::Clumps::marked))]
pub fn marked(l: [[u64; 2]; 3]) -> [[u64; 2]; 3]
    ensures { result ≡ only_in marked l }
{
    only(l, MARK)
}

// The unmarked entries that are used.
pub fn unmarked(l: [[u64; 2]; 3]) -> [[u64; 2]; 3]
    ensures { result ≡ only_in unmarked l }
{
    only(l, 0)
}

// The entries that are carried out in an unfinished clump: of an ACTIVATING one the unmarked ones, of a FREEING one all.
pub fn due(state: u64, l: [[u64; 2]; 3]) -> [[u64; 2]; 3]
    ensures { result ≡ due_in state l }
{
    if state == Clump::ACTIVATING {
        unmarked(l)
    } else {
        l
    }
}

// How many entries there are up to the last used one.
pub fn reach(l: [[u64; 2]; 3]) -> usize
    ensures { result ≡ reach_of l }
{
    l.iter().rposition(|e| e[0] != 0).map_or(0, |i| i + 1)
}

// Whether every used target of a list passes a test.
pub fn all_pass<F: Fn(u64) -> bool>(l: [[u64; 2]; 3], passes: F) -> bool
    requires { F.IsAlwaysCallable passes }
    ensures { (q : ℕ → Bool) → ((t : ℕ) (r : Bool) → t < word_values → F.post passes t r → r ≡ q t) → result ≡ list_passes q l }
{
    l.iter().all(|e| e[0] == 0 || passes(target_of(e[0])))
}
