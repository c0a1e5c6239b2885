// Tests of entries, and changes of their rows.
ghost use Rattle.std.specs.Prelude.{◌≡◌};
ghost use Rattle.laws.specs.Tests.{any_below};
ghost use Rattle.access.specs.Limits.{max_entries};
ghost use Rattle.tree.specs.Entries.{free_entry, is_above, is_child, is_full, same_object, put_entry, put_parent, free_row};

use access::limits::MAX_ENTRIES;
use cells::row_write;
use tables::rows::{
    ENTRY_KIND, ENTRY_OBJECT, ENTRY_PARENT, ENTRY_WIDTH, entry_live, is_dir, object_of, parent_of,
};

// The lowest number of no live entry; the number of entries if all are live.
pub fn free_entry(entries: &[u64]) -> usize
    ensures { result ≡ free_entry entries.now }
{
    let mut e = 0;
    while e < MAX_ENTRIES {
        if !entry_live(entries, e as u64) {
            return e;
        }
        e += 1;
    }
    e
}

// The entry `a` is `x` or stands above it.
pub fn is_above(entries: &[u64], a: u64, x: u64) -> bool
    ensures { result ≡ is_above entries.now a x }
{
    let mut at = x;
    let mut n = MAX_ENTRIES;
    while n > 0 {
        if at == a {
            return true;
        }
        if at == 0 {
            return false;
        }
        at = parent_of(entries, at);
        n -= 1;
    }
    at == a
}

fn is_child(entries: &[u64], e: u64, x: u64) -> bool
    ensures { result ≡ is_child entries.now e x }
{
    if x == 0 {
        return false;
    }
    if !entry_live(entries, x) {
        return false;
    }
    parent_of(entries, x) == e
}

fn has_child(entries: &[u64], e: u64) -> bool
    ensures { result ≡ any_below (is_child entries.now e) max_entries }
{
    let mut x = 0;
    while x < MAX_ENTRIES {
        if is_child(entries, e, x as u64) {
            return true;
        }
        x += 1;
    }
    false
}

// The entry is a directory with an entry in it.
pub fn is_full(entries: &[u64], e: u64) -> bool
    ensures { result ≡ is_full entries.now e }
{
    if !is_dir(entries, e) {
        return false;
    }
    has_child(entries, e)
}

pub fn same_object(entries: &[u64], s: u64, x: u64) -> bool
    ensures { result ≡ same_object entries.now s x }
{
    object_of(entries, s) == object_of(entries, x)
}

// Writes an entry's row.
pub fn put_entry(entries: &mut [u64], e: usize, kind: u64, parent: u64, object: u64)
    ensures { entries.new ≡ put_entry entries.old e kind parent object }
{
    row_write(entries, ENTRY_WIDTH, e, ENTRY_KIND, kind);
    row_write(entries, ENTRY_WIDTH, e, ENTRY_PARENT, parent);
    row_write(entries, ENTRY_WIDTH, e, ENTRY_OBJECT, object);
}

// Moves an entry to another directory.
pub fn put_parent(entries: &mut [u64], e: u64, parent: u64)
    ensures { entries.new ≡ put_parent entries.old e parent }
{
    row_write(entries, ENTRY_WIDTH, e as usize, ENTRY_PARENT, parent);
}

// Frees an entry's row: its cells become zero.
pub fn free_row(entries: &mut [u64], e: u64)
    ensures { entries.new ≡ free_row entries.old e }
{
    put_entry(entries, e as usize, 0, 0, 0);
}
