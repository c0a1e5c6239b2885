// Tests of the entry that a rename replaces, if there is one.
#![tactic(auto)]

ghost use Rattle.std.specs.Prelude.{◌≡◌, not, ◌&&◌, eqb};
ghost use Rattle.tables.specs.Tables.{parent, live, is_dir};
ghost use Rattle.tree.specs.Entries.{replacing, same_object, is_full};

use tables::rows::{entry_live, is_dir, parent_of};
use tree::Replaced;
use tree::entries::{is_full, same_object};

// The replaced entry is not live.
pub fn is_gone(entries: &[u64], x: Replaced) -> bool
    ensures { result ≡ replacing x (λ y. not (live entries.now y)) }
{
    match x {
        Replaced::None => false,
        Replaced::Entry(y) => !entry_live(entries, y),
    }
}

// The replaced entry is the root.
pub fn is_root(x: Replaced) -> bool
    ensures { result ≡ replacing x (λ y. eqb y 0) }
{
    match x {
        Replaced::None => false,
        Replaced::Entry(y) => y == 0,
    }
}

// The replaced entry does not stand in the directory `d`.
pub fn is_elsewhere(entries: &[u64], d: u64, x: Replaced) -> bool
    ensures { result ≡ replacing x (λ y. not (eqb (parent entries.now y) d)) }
{
    match x {
        Replaced::None => false,
        Replaced::Entry(y) => parent_of(entries, y) != d,
    }
}

// The replaced entry is one of the source's object.
pub fn is_same(entries: &[u64], s: u64, x: Replaced) -> bool
    ensures { result ≡ replacing x (same_object entries.now s) }
{
    match x {
        Replaced::None => false,
        Replaced::Entry(y) => same_object(entries, s, y),
    }
}

fn dir_over_other(entries: &[u64], s: u64, y: u64) -> bool
    ensures { result ≡ is_dir entries.now s && not (is_dir entries.now y) }
{
    if !is_dir(entries, s) {
        return false;
    }
    !is_dir(entries, y)
}

fn other_over_dir(entries: &[u64], s: u64, y: u64) -> bool
    ensures { result ≡ not (is_dir entries.now s) && is_dir entries.now y }
{
    if is_dir(entries, s) {
        return false;
    }
    is_dir(entries, y)
}

// A directory would replace an entry that is none.
pub fn is_dir_over_other(entries: &[u64], s: u64, x: Replaced) -> bool
    ensures { result ≡ replacing x (λ y. is_dir entries.now s && not (is_dir entries.now y)) }
{
    match x {
        Replaced::None => false,
        Replaced::Entry(y) => dir_over_other(entries, s, y),
    }
}

// An entry that is no directory would replace one.
pub fn is_other_over_dir(entries: &[u64], s: u64, x: Replaced) -> bool
    ensures { result ≡ replacing x (λ y. not (is_dir entries.now s) && is_dir entries.now y) }
{
    match x {
        Replaced::None => false,
        Replaced::Entry(y) => other_over_dir(entries, s, y),
    }
}

// The replaced entry is a directory with an entry in it.
pub fn is_over_full(entries: &[u64], x: Replaced) -> bool
    ensures { result ≡ replacing x (is_full entries.now) }
{
    match x {
        Replaced::None => false,
        Replaced::Entry(y) => is_full(entries, y),
    }
}
