// Walks along chains of the entries whose names fall into one bucket, in which a name is looked for.
#![tactic(auto)]

ghost use Rattle.std.specs.Prelude.{◌≡◌, ◌*◌, ◌<◌, length};
ghost use Rattle.access.specs.Limits.{max_entries};
ghost use Rattle.names.specs.Names.{name_width};
ghost use Rattle.sound_names_walk.specs.Fold.{buckets, turned, folded, bucket_of};
ghost use Rattle.sound_names_walk.specs.Walks.{same_name, Nodes, IsWalked};

use names::NAME_WIDTH;
use sound_names_words::{same_row, word};
use tables::rows::parent_of;

pub const BUCKETS: usize = 4096;
// By how many bits a fold is turned with each word, to the left, which is so many to the right.
const TURN: u64 = 19;

const TURN_BACK: u64 = 64 - TURN;
// What the halves of a fold are below, and what spreads each over the bits of a word.
const HALF: u64 = 0x1_0000_0000;

const LOW_FACTOR: u64 = 0x9E37_79B1;

const HIGH_FACTOR: u64 = 0x85EB_CA77;

// What a walk tells: no entry of the chain has the row, with so many steps left, but nothing once none is left; or the entry that has it.
#[derive(Clone, Copy)]
pub enum Walked {
    Missing(usize),
    Found(usize),
}

// The fold with the next word. Any function would do.
fn turn(w: u64, x: u64) -> u64
    ensures { result ≡ turned w x }
{
    ((w << TURN) | (w >> TURN_BACK)) ^ x
}

// The fold of a directory and a row.
pub fn fold(parent: u64, row: &[u8]) -> u64
    requires { length row.now ≡ name_width }
    ensures { result ≡ folded parent row.now }
{
    let a = turn(parent, word(row, 1));
    let b = turn(a, word(row, 9));
    let c = turn(b, word(row, 17));
    let d = turn(c, word(row, 25));
    let e = turn(d, word(row, 33));
    turn(e, word(row, 41))
}

// The bucket of a fold.
pub fn bucket_of(w: u64) -> usize
    ensures { (result ≡ bucket_of w) × (result < buckets) }
{
    let low = w % HALF * LOW_FACTOR;
    let high = w / HALF * HIGH_FACTOR;
    let m = low ^ high;
    ((m ^ (m / HALF)) % BUCKETS as u64) as usize
}

// Entry `f` stands in the directory `parent`, and has the row.
fn is_same_name(entries: &[u64], names: &[u8], parent: u64, row: &[u8], f: usize) -> bool
    requires { (length names.now ≡ name_width * max_entries) × ((length row.now ≡ name_width) × (f < max_entries)) }
    ensures { result ≡ same_name entries.now names.now parent row.now f }
{
    if parent_of(entries, f as u64) != parent {
        return false;
    }
    let from = NAME_WIDTH * f;
    same_row(row, &names[from..from + NAME_WIDTH])
}

// Goes along the chain from `head` and looks for an entry of the directory with the row, in at most `steps` steps.
pub fn walk(
    entries: &[u64],
    names: &[u8],
    links: &[u16],
    parent: u64,
    row: &[u8],
    head: usize,
    steps: usize,
) -> Walked
    requires { (length names.now ≡ name_width * max_entries) × (((length row.now ≡ name_width) × (head < max_entries)) × ((length links.now ≡ max_entries) × Nodes entries.now links.now max_entries)) }
    ensures { IsWalked entries.now names.now links.now parent row.now head result }
{
    let mut at = head;
    let mut left = steps;
    while at != 0 {
        if left == 0 {
            return Walked::Missing(0);
        }
        if is_same_name(entries, names, parent, row, at) {
            return Walked::Found(at);
        }
        at = links[at] as usize;
        left -= 1;
    }
    Walked::Missing(left)
}
