// Names that are unique in their directories, by chains of the entries whose names fall into one bucket.
#![tactic(auto)]

ghost use Rattle.std.specs.Prelude.{◌≡◌, true, ◌+◌, ◌*◌, ◌<◌, length, replicate};
ghost use Rattle.laws.specs.Tests.{all_below};
ghost use Rattle.access.specs.Limits.{max_entries};
ghost use Rattle.names.specs.Names.{name_width, is_named, row_sound};
ghost use Rattle.sound_names_walk.specs.Fold.{buckets};
ghost use Rattle.sound_names_chains.specs.Chains.{ChainedBelow, tested_by, IsAdded, IsTold};

use access::limits::MAX_ENTRIES;
use names::NAME_WIDTH;
use sound_names_rows::{is_named, row_sound};
use sound_names_walk::{Walked, bucket_of, fold, walk};
use tables::rows::parent_of;

// The steps along chains: clients choose the names, and can bring all of them into one bucket.
const STEPS: usize = 4096;

// What the test of an entry tells: no twin, with so many steps left, but nothing of twins once none is left; or not sound.
#[derive(Clone, Copy)]
pub enum Tested {
    Left(usize),
    Unsound,
}

// What the test of all names tells: sound; not sound; or not known, for lack of steps, but every row is sound.
#[derive(Clone, Copy)]
pub enum Answer {
    Sound,
    Unsound,
    Open,
}

// What a walk tells of the entry whose row it looked for.
fn tested_by(walked: Walked) -> Tested
    ensures { result ≡ tested_by walked }
{
    match walked {
        Walked::Missing(left) => Tested::Left(left),
        Walked::Found(_) => Tested::Unsound,
    }
}

// Puts entry `e` at the head of its bucket's chain, along which its name is looked for.
fn add_name(
    entries: &[u64],
    names: &[u8],
    heads: &mut [u16],
    links: &mut [u16],
    e: usize,
    steps: usize,
) -> Tested
    requires { (length names.now ≡ name_width * max_entries) × (((e < max_entries) × (is_named entries.now e ≡ true)) × ((steps ≡ 0 → ⊥) × ((all_below (row_sound entries.now names.now) (e + 1) ≡ true) × ChainedBelow entries.now names.now heads.old links.old e))) }
    ensures { IsAdded entries.now names.now heads.new links.new steps e result }
{
    let parent = parent_of(entries, e as u64);
    let from = NAME_WIDTH * e;
    let row = &names[from..from + NAME_WIDTH];
    let b = bucket_of(fold(parent, row));
    let head = heads[b];
    let walked = walk(entries, names, links, parent, row, head as usize, steps);
    links[e] = head;
    heads[b] = e as u16;
    tested_by(walked)
}

// The test of entry `e` against those before it, which the index has as long as a step is left.
fn add_entry(
    entries: &[u64],
    names: &[u8],
    heads: &mut [u16],
    links: &mut [u16],
    e: usize,
    steps: usize,
) -> Tested
    requires { (length names.now ≡ name_width * max_entries) × ((e < max_entries) × ((all_below (row_sound entries.now names.now) e ≡ true) × ((steps ≡ 0 → ⊥) → ChainedBelow entries.now names.now heads.old links.old e))) }
    ensures { IsAdded entries.now names.now heads.new links.new steps e result }
{
    let from = NAME_WIDTH * e;
    let named = is_named(entries, e);
    if !row_sound(&names[from..from + NAME_WIDTH], named) {
        return Tested::Unsound;
    }
    if steps == 0 {
        return Tested::Left(0);
    }
    if !named {
        return Tested::Left(steps);
    }
    add_name(entries, names, heads, links, e, steps)
}

// The names are sound, as far as the steps suffice: every entry against those before it. Fills the index, which starts as zeros.
pub fn names_by_chains(
    entries: &[u64],
    names: &[u8],
    heads: &mut [u16],
    links: &mut [u16],
) -> Answer
    requires { (length names.now ≡ name_width * max_entries) × ((heads.old ≡ replicate buckets 0) × (links.old ≡ replicate max_entries 0)) }
    ensures { IsTold entries.now names.now heads.new links.new result }
{
    let mut left = STEPS;
    let mut e = 0;
    while e < MAX_ENTRIES {
        let tested = add_entry(entries, names, heads, links, e, left);
        match tested {
            Tested::Left(steps) => {
                left = steps;
                e += 1;
            }
            Tested::Unsound => return Answer::Unsound,
        }
    }
    if left == 0 {
        return Answer::Open;
    }
    Answer::Sound
}
