// Who bears a name in a directory.
#![tactic(auto)]

ghost use Rattle.std.specs.Prelude.{◌≡◌, cond, ◌&&◌, ◌/◌, min, ltb};
ghost use Rattle.access.specs.Limits.{max_entries};
ghost use Rattle.tables.specs.Tables.{entry_width};
ghost use Rattle.names.specs.Names.{same_bytes, name_at, is_named, bears, bearer_from, taken, bearer};

use access::limits::MAX_ENTRIES;
use name_rows::{name_of, same_bytes};
use tables::rows::{ENTRY_PARENT, ENTRY_WIDTH, entry_live, parent_of};
use tree::Replaced;

// The entry is live, no root, and bears the name, wherever it stands.
fn is_named_so(entries: &[u64], names: &[u8], x: u64, name: &[u8]) -> bool
    ensures { result ≡ (is_named entries.now x && same_bytes (name_at names.now x) name.now) }
{
    if x == 0 {
        return false;
    }
    if !entry_live(entries, x) {
        return false;
    }
    same_bytes(name_of(names, x), name)
}

// The rows that a table of `n` cells has whole, and no more than there are entries.
fn whole_rows(n: usize) -> usize
    ensures { result ≡ min (n / entry_width) max_entries }
{
    if n / ENTRY_WIDTH < MAX_ENTRIES {
        return n / ENTRY_WIDTH;
    }
    MAX_ENTRIES
}

// The entry of a row that the table does not have whole, if it bears the name; the number of entries if not.
fn cut_bearer(entries: &[u64], names: &[u8], d: u64, name: &[u8], x: usize) -> usize
    ensures { result ≡ cond (ltb x max_entries && bears entries.now names.now d name.now x) x max_entries }
{
    if x >= MAX_ENTRIES {
        return MAX_ENTRIES;
    }
    if parent_of(entries, x as u64) != d {
        return MAX_ENTRIES;
    }
    if is_named_so(entries, names, x as u64, name) {
        return x;
    }
    MAX_ENTRIES
}

// The entry that bears the name in the directory; the number of entries if none does.
fn bearer_from(entries: &[u64], names: &[u8], d: u64, name: &[u8]) -> usize
    ensures { result ≡ bearer_from entries.now names.now d name.now }
{
    let n = whole_rows(entries.len());
    let mut x = 0;
    while x < n {
        if entries[ENTRY_WIDTH * x + ENTRY_PARENT] == d {
            if is_named_so(entries, names, x as u64, name) {
                return x;
            }
        }
        x += 1;
    }
    cut_bearer(entries, names, d, name, x)
}

// Some entry bears the name in the directory.
pub fn is_taken(entries: &[u64], names: &[u8], d: u64, name: &[u8]) -> bool
    ensures { result ≡ taken entries.now names.now d name.now }
{
    bearer_from(entries, names, d, name) < MAX_ENTRIES
}

// The entry that bears the name in the directory, if one does.
pub fn bearer(entries: &[u64], names: &[u8], d: u64, name: &[u8]) -> Replaced
    ensures { result ≡ bearer entries.now names.now d name.now }
{
    let x = bearer_from(entries, names, d, name);
    if x < MAX_ENTRIES {
        return Replaced::Entry(x as u64);
    }
    Replaced::None
}
