// A change of the tree, tried on its entries, their names and the next object number: it is made if its call, thread, verdict and log apart, would neither
// refuse it nor leave the tree. The answer is whether it was made; one that is not leaves every cell.
#![tactic(auto)]

ghost use Rattle.std.specs.Prelude.{◌≡◌, ℕ};
ghost use Rattle.tree_log.specs.Changes.{create, remove, link, rename, exchange, read_field};
ghost use Rattle.log_checks.specs.Checks.{tree_with};
ghost use Rattle.log_changes.specs.Tried.{tried_as, tried, tried_read};

use log_checks::{create_refusal, exchange_refusal, link_refusal, remove_refusal, rename_refusal};
use log_fields::{Seen, read_field};
use name_bearer::bearer;
use name_rows::{clear_name, put_name};
use named_names::{put_renamed, put_swapped};
use tree::entries::{free_entry, free_row, put_entry, same_object};
use tree_exchange::apply_exchange;
use tree_link::apply_link;
use tree_rename::apply_rename;
use tree_replaced::is_same;

// A new entry, with a new object.
fn try_create(
    entries: &mut [u64],
    names: &mut [u8],
    next: &mut u64,
    kind: u64,
    d: u64,
    name: &[u8],
) -> bool
    ensures { tried_as result (tree_with entries.new names.new next.new) ≡ tried (tree_with entries.old names.old next.old) (create kind d name.now) }
{
    let object = *next;
    if create_refusal(entries, names, object, kind, d, name) != 0 {
        return false;
    }
    let e = free_entry(entries);
    put_entry(entries, e, kind, d, object);
    put_name(names, e as u64, name);
    *next = object + 1;
    true
}

// The next object number, which the others do not read, stays.
fn try_remove(entries: &mut [u64], names: &mut [u8], e: u64) -> bool
    ensures { (v : ℕ) → tried_as result (tree_with entries.new names.new v) ≡ tried (tree_with entries.old names.old v) (remove e) }
{
    if remove_refusal(entries, e) != 0 {
        return false;
    }
    free_row(entries, e);
    clear_name(names, e);
    true
}

fn try_link(entries: &mut [u64], names: &mut [u8], s: u64, d: u64, name: &[u8]) -> bool
    ensures { (v : ℕ) → tried_as result (tree_with entries.new names.new v) ≡ tried (tree_with entries.old names.old v) (link s d name.now) }
{
    if link_refusal(entries, names, s, d, name) != 0 {
        return false;
    }
    let e = free_entry(entries);
    apply_link(entries, s, d, e);
    put_name(names, e as u64, name);
    true
}

fn try_rename(entries: &mut [u64], names: &mut [u8], s: u64, d: u64, name: &[u8]) -> bool
    ensures { (v : ℕ) → tried_as result (tree_with entries.new names.new v) ≡ tried (tree_with entries.old names.old v) (rename s d name.now) }
{
    let x = bearer(entries, names, d, name);
    if rename_refusal(entries, names, s, d, name, x) != 0 {
        return false;
    }
    if is_same(entries, s, x) {
        return false;
    }
    put_renamed(entries, names, s, name, x);
    apply_rename(entries, s, d, x);
    true
}

fn try_exchange(entries: &mut [u64], names: &mut [u8], s: u64, d: u64, x: u64) -> bool
    ensures { (v : ℕ) → tried_as result (tree_with entries.new names.new v) ≡ tried (tree_with entries.old names.old v) (exchange s d x) }
{
    if exchange_refusal(entries, s, d, x) != 0 {
        return false;
    }
    if same_object(entries, s, x) {
        return false;
    }
    put_swapped(entries, names, s, x);
    apply_exchange(entries, s, d, x);
    true
}

// The change that a field stands for. One that is not listed is not made.
pub fn try_field(
    entries: &mut [u64],
    names: &mut [u8],
    next: &mut u64,
    tag: u8,
    value: &[u8],
) -> bool
    ensures { tried_as result (tree_with entries.new names.new next.new) ≡ tried_read (read_field tag value.now) (tree_with entries.old names.old next.old) }
{
    let seen = read_field(tag, value);
    match seen {
        Seen::Create(kind, d) => { try_create(entries, names, next, kind as u64, d, &value[3..]) }
        Seen::Remove(e) => try_remove(entries, names, e),
        Seen::Link(s, d) => try_link(entries, names, s, d, &value[4..]),
        Seen::Rename(s, d) => try_rename(entries, names, s, d, &value[4..]),
        Seen::Exchange(s, d, x) => try_exchange(entries, names, s, d, x),
        Seen::Unlisted => false,
    }
}
