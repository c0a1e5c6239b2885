// Entries of one object agree in kind, and a directory has one entry; the index of objects is filled in the same pass.
#![tactic(auto)]

ghost use Rattle.std.specs.Prelude.{◌≡◌, true, ◌+◌, ◌*◌, ◌<◌, length, replicate};
ghost use Rattle.laws.specs.Tests.{all_below};
ghost use Rattle.access.specs.Limits.{max_entries};
ghost use Rattle.tables.specs.Tables.{entry_width};
ghost use Rattle.sound_objects.specs.Rows.{Ends};
ghost use Rattle.sound_objects.specs.Objects.{buckets, branches, IndexedBelow, Indexed};
ghost use Rattle.sound_tree.specs.Tree.{links_sound};
ghost use Rattle.sound_tree.specs.Fast.{kinds_agree};

use sound_objects::{bucket_of, search};
use tables::rows::{DIRECTORY, ENTRY_OBJECT, ENTRY_WIDTH};

// Two live entries of one object, by their kinds: they agree, and are no directories.
fn kinds_agree(k: u64, l: u64) -> bool
    ensures { result ≡ kinds_agree k l }
{
    k == l && k != DIRECTORY
}

// Adds entry `e` to the index of objects if it is live and the first of its object; otherwise it agrees with the first, which stands for all of them.
#[tactic(auto, using(sound_objects::proofs::Index::bucket_in))]
fn add_entry(entries: &[u64], heads: &mut [u16], links: &mut [u16], e: usize) -> bool
    requires { ((length entries.now ≡ entry_width * max_entries) × (e < max_entries)) × IndexedBelow entries.now heads.old links.old e }
    ensures { (result ≡ links_sound entries.now e) × (result ≡ true → IndexedBelow entries.now heads.new links.new (e + 1)) }
{
    let kind = entries[ENTRY_WIDTH * e];
    if kind == 0 {
        return true;
    }
    let object = entries[ENTRY_WIDTH * e + ENTRY_OBJECT];
    let b = bucket_of(object);
    let root = heads[b] as usize;
    if root == 0 {
        heads[b] = (e + 1) as u16;
        return true;
    }
    match search(entries, links, object, root) {
        Ok(f) => kinds_agree(kind, entries[ENTRY_WIDTH * f]),
        Err(cell) => {
            links[cell] = (e + 1) as u16;
            true
        }
    }
}

// Entries of one object agree. Fills the index of objects, which starts as zeros.
pub fn objects_sound(entries: &[u64], end: usize, heads: &mut [u16], links: &mut [u16]) -> bool
    requires { Ends entries.now end × ((heads.old ≡ replicate buckets 0) × (links.old ≡ replicate (branches * max_entries) 0)) }
    ensures { (result ≡ all_below (links_sound entries.now) max_entries) × (result ≡ true → Indexed entries.now heads.new links.new) }
{
    for e in 0..end {
        if !add_entry(entries, heads, links, e) {
            return false;
        }
    }
    true
}
