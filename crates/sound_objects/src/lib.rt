// The rows of entries that are in use, and the search in an index of the entries by their objects.
#![tactic(auto)]

ghost use Rattle.std.specs.Prelude.{◌≡◌, ◌*◌, ◌≤◌, ◌<◌, length};
ghost use Rattle.access.specs.Limits.{max_entries};
ghost use Rattle.tables.specs.Tables.{entry_width};
ghost use Rattle.sound_objects.specs.Rows.{block_rows, blocks, used_blocks};
ghost use Rattle.sound_objects.specs.Objects.{branches, bucket_of, child_of, Trees, Searched};

use access::limits::MAX_ENTRIES;
use sound_zero::all_zero;
use tables::rows::{ENTRY_OBJECT, ENTRY_WIDTH};

pub const BUCKETS: usize = 1024;
// The children of a node.
const BRANCHES: usize = 4;
// The cells of the children of all nodes, each an entry's number + 1, or 0: sixteen bits, since all of them are cleared before each call.
pub const LINKS: usize = BRANCHES * MAX_ENTRIES;
// The rows of entries that are tested at once.
const BLOCK_ROWS: usize = 8;

const BLOCK_CELLS: usize = ENTRY_WIDTH * BLOCK_ROWS;

// The rows up to the last block that is not free.
pub fn rows_used(entries: &[u64]) -> usize
    requires { length entries.now ≡ entry_width * max_entries }
    ensures { result ≡ block_rows * used_blocks entries.now blocks }
{
    for n in (0..MAX_ENTRIES / BLOCK_ROWS).rev() {
        let from = BLOCK_CELLS * n;
        let to = from + BLOCK_CELLS;
        if !all_zero(&entries[from..to]) {
            return BLOCK_ROWS * (n + 1);
        }
    }
    0
}

pub fn bucket_of(object: u64) -> usize
    ensures { result ≡ bucket_of object }
{
    (object % BUCKETS as u64) as usize
}

// The cell of the child of node `f` to which a search with key `k` goes.
fn child_of(f: usize, k: u64) -> usize
    requires { f < max_entries }
    ensures { (result ≡ child_of f k) × (result < branches * max_entries) }
{
    BRANCHES * f + (k % BRANCHES as u64) as usize
}

// Searches for an object from the root of its bucket's tree: the entry that is its node, or the empty cell of `links` where the node would be.
// A tree and no chain, since a client that creates and removes entries can bring all objects into one bucket: they are below 2^32, so that a
// search passes at most 12 nodes, the root and one for each digit, to base 4, above the bucket's bits.
pub fn search(entries: &[u64], links: &[u16], object: u64, root: usize) -> Result<usize, usize>
    requires { (length entries.now ≡ entry_width * max_entries) × (Trees entries.now links.now max_entries × ((root ≡ 0 → ⊥) × (root ≤ max_entries))) }
    ensures { Searched entries.now links.now object root result }
{
    let mut at = root;
    let mut key = object / BUCKETS as u64;
    loop {
        let f = at - 1;
        if entries[ENTRY_WIDTH * f + ENTRY_OBJECT] == object {
            return Ok(f);
        }
        let cell = child_of(f, key);
        at = links[cell] as usize;
        if at == 0 {
            return Err(cell);
        }
        key /= BRANCHES as u64;
    }
}
