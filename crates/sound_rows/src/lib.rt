// The rows of the entries, each by itself: the root, free rows, kinds, parents and objects.
#![tactic(auto)]

ghost use Rattle.std.specs.Prelude.{◌≡◌, true, ◌+◌, ◌*◌, ◌<◌, length};
ghost use Rattle.laws.specs.Tests.{all_below};
ghost use Rattle.access.specs.Limits.{max_entries};
ghost use Rattle.tables.specs.Tables.{entry_width, kind, object};
ghost use Rattle.sound_objects.specs.Rows.{Ends};
ghost use Rattle.sound_tree.specs.Tree.{root_sound};
ghost use Rattle.sound_tree.specs.Fast.{row_sound};

use access::limits::MAX_ENTRIES;
use tables::rows::{DIRECTORY, ENTRY_KIND, ENTRY_OBJECT, ENTRY_PARENT, ENTRY_WIDTH, LAST_KIND};

pub fn root_sound(entries: &[u64]) -> bool
    requires { length entries.now ≡ entry_width * max_entries }
    ensures { result ≡ root_sound entries.now }
{
    if entries[ENTRY_KIND] != DIRECTORY {
        return false;
    }
    if entries[ENTRY_PARENT] != 0 {
        return false;
    }
    entries[ENTRY_OBJECT] == 0
}

// The entry's row is sound, but for its climb.
fn row_sound(entries: &[u64], next: u64, e: usize) -> bool
    requires { (length entries.now ≡ entry_width * max_entries) × (e < max_entries) }
    ensures { result ≡ row_sound entries.now next e }
{
    let kind = entries[ENTRY_WIDTH * e];
    let parent = entries[ENTRY_WIDTH * e + ENTRY_PARENT] as usize;
    let object = entries[ENTRY_WIDTH * e + ENTRY_OBJECT];
    if kind == 0 {
        if parent != 0 {
            return false;
        }
        return object == 0;
    }
    if kind > LAST_KIND {
        return false;
    }
    if parent >= MAX_ENTRIES {
        return false;
    }
    if entries[ENTRY_WIDTH * parent] != DIRECTORY {
        return false;
    }
    object < next
}

pub fn rows_sound(entries: &[u64], end: usize, next: u64) -> bool
    requires { Ends entries.now end }
    ensures { result ≡ all_below (row_sound entries.now next) max_entries }
{
    (0..end).all(|e| row_sound(entries, next, e))
}
