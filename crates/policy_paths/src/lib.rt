// The paths of entries: which of an object's is chosen, how long one is, and writing one.
#![tactic(auto)]

ghost use Rattle.std.specs.Prelude.{◌≡◌, true, cond, ◌&&◌, ◌-◌, ◌≤◌, ◌<◌, length};
ghost use Rattle.std.proofs.lemmas.List.Edits.{sets};
ghost use Rattle.access.specs.Limits.{max_entries};
ghost use Rattle.tables.specs.Tables.{live};
ghost use Rattle.names.specs.Paths.{path_up, path_of};
ghost use Rattle.policy_write.specs.Chosen.{is_entry_of, goes_first, chosen};
ghost use Rattle.policy_paths.specs.Rooted.{Rooted};

use access::limits::MAX_ENTRIES;
use name_rows::name_of;
use names::SLASH;
use path_order::path_ordered;
use policy_bytes::put_bytes;
use tables::rows::{entry_live, object_of, parent_of};

fn is_entry_of(entries: &[u64], o: u64, e: u64) -> bool
    ensures { result ≡ is_entry_of entries.now o e }
{
    if entry_live(entries, e) {
        return object_of(entries, e) == o;
    }
    false
}

// No entry is chosen yet, or the path of `e` goes before that of the chosen one.
fn goes_first(entries: &[u64], names: &[u8], e: u64, c: u64) -> bool
    requires { Rooted entries.now names.now × (live entries.now e ≡ true) × (c < max_entries → live entries.now c ≡ true) }
    ensures { result ≡ goes_first entries.now names.now e c }
{
    if c >= MAX_ENTRIES as u64 {
        return true;
    }
    path_ordered(entries, names, e, c)
}

// Of the entry `e` and the one chosen before it, the one that is chosen now.
fn choose_of(entries: &[u64], names: &[u8], o: u64, e: u64, c: u64) -> u64
    requires { Rooted entries.now names.now × (c < max_entries → live entries.now c ≡ true) }
    ensures { result ≡ cond (is_entry_of entries.now o e && goes_first entries.now names.now e c) e c }
{
    if !is_entry_of(entries, o, e) {
        return c;
    }
    if goes_first(entries, names, e, c) {
        e
    } else {
        c
    }
}

// The entry of an object whose path is the first in byte order; the number of entries if the object has none.
pub fn choose(entries: &[u64], names: &[u8], o: u64) -> u64
    requires { Rooted entries.now names.now }
    ensures { result ≡ chosen entries.now names.now o }
{
    let last = MAX_ENTRIES as u64;
    let mut c = last;
    let mut e = 0;
    while e < last {
        c = choose_of(entries, names, o, e, c);
        e += 1;
    }
    c
}

// How long the path of an entry other than the root is.
fn length_up(entries: &[u64], names: &[u8], e: u64) -> usize
    ensures { result ≡ length (path_up entries.now names.now max_entries e) }
{
    let mut n = 0;
    let mut x = e;
    let mut left = MAX_ENTRIES;
    while left > 0 {
        if x == 0 {
            return n;
        }
        n = n + name_of(names, x).len() + 1;
        x = parent_of(entries, x);
        left -= 1;
    }
    n
}

// How long the path of an entry is.
pub fn path_length(entries: &[u64], names: &[u8], e: u64) -> usize
    ensures { result ≡ length (path_of entries.now names.now e) }
{
    if e == 0 {
        return 1;
    }
    length_up(entries, names, e)
}

// Writes the path of an entry other than the root, up to `end`: the last name first.
fn put_up(out: &mut [u8], end: usize, entries: &[u64], names: &[u8], e: u64)
    requires { (length (path_up entries.now names.now max_entries e) ≤ end) × (end ≤ length out.old) }
    ensures { out.new ≡ sets out.old (end - length (path_up entries.now names.now max_entries e)) (path_up entries.now names.now max_entries e) }
{
    let mut at = end;
    let mut x = e;
    let mut left = MAX_ENTRIES;
    while left > 0 {
        if x == 0 {
            return;
        }
        let name = name_of(names, x);
        at = at - name.len();
        put_bytes(out, at, name);
        at -= 1;
        out[at] = SLASH;
        x = parent_of(entries, x);
        left -= 1;
    }
}

// Writes the path of an entry up to `end`.
pub fn put_path(out: &mut [u8], end: usize, entries: &[u64], names: &[u8], e: u64)
    requires { (length (path_of entries.now names.now e) ≤ end) × (end ≤ length out.old) }
    ensures { out.new ≡ sets out.old (end - length (path_of entries.now names.now e)) (path_of entries.now names.now e) }
{
    if e == 0 {
        out[end - 1] = SLASH;
        return;
    }
    put_up(out, end, entries, names, e);
}
