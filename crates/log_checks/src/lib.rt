// The refusals of a change of the tree, thread, verdict and log apart.
#![tactic(auto)]

ghost use Rattle.std.specs.Prelude.{◌≡◌, []};
ghost use Rattle.laws.specs.Refusals.{first};
ghost use Rattle.names.specs.Names.{bearer};
ghost use Rattle.tree_log.specs.Changes.{create, remove, link, rename, exchange};
ghost use Rattle.tree_log.specs.Tree.{create_place, move_place, exchange_place, tree_checks};
ghost use Rattle.log_checks.specs.Checks.{tree_with, create_room, link_room};

use access::errno::Errno;
use access::limits::{MAX_COUNTER, MAX_ENTRIES};
use name_checks::name_checks;
use named_checks::new_name;
use tables::rows::{entry_live, is_dir};
use tree::Replaced;
use tree::entries::{free_entry, is_above, is_full};
use tree_create::create::unknown_kind;
use tree_exchange::exchange_shape;
use tree_rename::rename_later;

fn create_place(entries: &[u64], d: u64) -> u64
    ensures { result ≡ first (create_place entries.now d) }
{
    if !entry_live(entries, d) {
        return Errno::ENOENT.0;
    }
    if !is_dir(entries, d) {
        return Errno::ENOTDIR.0;
    }
    0
}

fn create_room(entries: &[u64], next: u64, kind: u64) -> u64
    ensures { result ≡ first (create_room entries.now next kind) }
{
    if unknown_kind(kind) {
        return Errno::EINVAL.0;
    }
    if free_entry(entries) >= MAX_ENTRIES {
        return Errno::ENOSPC.0;
    }
    if next >= MAX_COUNTER {
        return Errno::ENOSPC.0;
    }
    0
}

// Of a create, with the next object number. The other checks do not read it, nor some of them the names.
pub fn create_refusal(
    entries: &[u64],
    names: &[u8],
    next: u64,
    kind: u64,
    d: u64,
    name: &[u8],
) -> u64
    ensures { result ≡ first (tree_checks (tree_with entries.now names.now next) (create kind d name.now)) }
{
    let a = create_place(entries, d);
    if a != 0 {
        return a;
    }
    let b = new_name(entries, names, d, name);
    if b != 0 {
        return b;
    }
    create_room(entries, next, kind)
}

pub fn remove_refusal(entries: &[u64], e: u64) -> u64
    ensures { result ≡ first (tree_checks (tree_with entries.now [] 0) (remove e)) }
{
    if !entry_live(entries, e) {
        return Errno::ENOENT.0;
    }
    if e == 0 {
        return Errno::EBUSY.0;
    }
    if is_full(entries, e) {
        return Errno::ENOTEMPTY.0;
    }
    0
}

fn move_place(entries: &[u64], s: u64, d: u64) -> u64
    ensures { result ≡ first (move_place entries.now s d) }
{
    if !entry_live(entries, s) {
        return Errno::ENOENT.0;
    }
    if !entry_live(entries, d) {
        return Errno::ENOENT.0;
    }
    if s == 0 {
        return Errno::EBUSY.0;
    }
    if !is_dir(entries, d) {
        return Errno::ENOTDIR.0;
    }
    0
}

fn link_room(entries: &[u64], s: u64) -> u64
    ensures { result ≡ first (link_room entries.now s) }
{
    if is_dir(entries, s) {
        return Errno::EPERM.0;
    }
    if free_entry(entries) >= MAX_ENTRIES {
        return Errno::ENOSPC.0;
    }
    0
}

pub fn link_refusal(entries: &[u64], names: &[u8], s: u64, d: u64, name: &[u8]) -> u64
    ensures { result ≡ first (tree_checks (tree_with entries.now names.now 0) (link s d name.now)) }
{
    let a = move_place(entries, s, d);
    if a != 0 {
        return a;
    }
    let b = new_name(entries, names, d, name);
    if b != 0 {
        return b;
    }
    link_room(entries, s)
}

// `x` is the entry that bears the name in the directory, if one does.
pub fn rename_refusal(
    entries: &[u64],
    names: &[u8],
    s: u64,
    d: u64,
    name: &[u8],
    x: Replaced,
) -> u64
    requires { x ≡ bearer entries.now names.now d name.now }
    ensures { result ≡ first (tree_checks (tree_with entries.now names.now 0) (rename s d name.now)) }
{
    let a = move_place(entries, s, d);
    if a != 0 {
        return a;
    }
    let b = name_checks(name);
    if b != 0 {
        return b;
    }
    if is_above(entries, s, d) {
        return Errno::EINVAL.0;
    }
    rename_later(entries, s, x)
}

fn exchange_place(entries: &[u64], s: u64, d: u64, x: u64) -> u64
    ensures { result ≡ first (exchange_place entries.now s d x) }
{
    if !entry_live(entries, s) {
        return Errno::ENOENT.0;
    }
    if !entry_live(entries, d) {
        return Errno::ENOENT.0;
    }
    if !entry_live(entries, x) {
        return Errno::ENOENT.0;
    }
    0
}

pub fn exchange_refusal(entries: &[u64], s: u64, d: u64, x: u64) -> u64
    ensures { result ≡ first (tree_checks (tree_with entries.now [] 0) (exchange s d x)) }
{
    let a = exchange_place(entries, s, d, x);
    if a != 0 {
        return a;
    }
    exchange_shape(entries, s, d, x)
}
