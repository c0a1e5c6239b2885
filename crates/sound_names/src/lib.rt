// The soundness test of the names: by chains, and where these grow long by a sorted list.
#![tactic(auto)]

ghost use Rattle.std.specs.Prelude.{◌≡◌, replicate};
ghost use Rattle.access.specs.Limits.{max_entries};
ghost use Rattle.names.specs.Names.{names_sound};
ghost use Rattle.sound_names_walk.specs.Fold.{buckets};
ghost use Rattle.sound_names_chains.specs.Chains.{IndexedIf};

use access::limits::MAX_ENTRIES;
use names::NAME_WIDTH;
use sound_names_chains::{Answer, names_by_chains};
use sound_names_sorted::names_by_order;
use sound_names_walk::BUCKETS;

// The bytes of the table of names.
pub const NAMES_BYTES: usize = NAME_WIDTH * MAX_ENTRIES;

// What the test of the names tells: they are sound, and the index has them all.
#[derive(Clone, Copy)]
pub struct Indexed {
    pub sound: bool,
    pub whole: bool,
}

const UNSOUND: Indexed = Indexed {
    sound: false,
    whole: false,
};

// The test of the names. Fills an index of them, which starts as zeros, and is not whole if its chains grow long.
pub fn names_indexed(entries: &[u64], names: &[u8], heads: &mut [u16], links: &mut [u16]) -> Indexed
    requires { (heads.old ≡ replicate buckets 0) × (links.old ≡ replicate max_entries 0) }
    ensures { (result.sound ≡ names_sound entries.now names.now) × IndexedIf result.whole entries.now names.now heads.new links.new }
{
    if names.len() != NAMES_BYTES {
        return UNSOUND;
    }
    let answer = names_by_chains(entries, names, heads, links);
    match answer {
        Answer::Sound => Indexed {
            sound: true,
            whole: true,
        },
        Answer::Unsound => UNSOUND,
        Answer::Open => Indexed {
            sound: names_by_order(entries, names),
            whole: false,
        },
    }
}

// The names are sound.
pub fn names_sound(entries: &[u64], names: &[u8]) -> bool
    ensures { result ≡ names_sound entries.now names.now }
{
    let mut heads = [0u16; BUCKETS];
    let mut links = [0u16; MAX_ENTRIES];
    names_indexed(entries, names, &mut heads, &mut links).sound
}
