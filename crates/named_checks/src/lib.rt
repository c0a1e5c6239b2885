// The checks that come before document 01's own where a call takes a name: those up to the target's, then the name's.
#![tactic(auto)]

ghost use Rattle.std.specs.Prelude.{◌≡◌};
ghost use Rattle.laws.specs.Refusals.{first};
ghost use Rattle.named.specs.Tree.{create_target, link_target, new_name};

use access::errno::Errno;
use name_bearer::is_taken;
use name_checks::name_checks;
use tables::rows::{entry_live, is_dir, thread_live};

pub fn create_target(entries: &[u64], threads: &[u64], t: u64, d: u64) -> u64
    ensures { result ≡ first (create_target entries.now threads.now t d) }
{
    if !thread_live(threads, t) {
        return Errno::ESRCH.0;
    }
    if !entry_live(entries, d) {
        return Errno::ENOENT.0;
    }
    if !is_dir(entries, d) {
        return Errno::ENOTDIR.0;
    }
    0
}

pub fn link_target(entries: &[u64], threads: &[u64], t: u64, s: u64, d: u64) -> u64
    ensures { result ≡ first (link_target entries.now threads.now t s d) }
{
    if !thread_live(threads, t) {
        return Errno::ESRCH.0;
    }
    if !entry_live(entries, s) {
        return Errno::ENOENT.0;
    }
    if !entry_live(entries, d) {
        return Errno::ENOENT.0;
    }
    if s == 0 {
        return Errno::EBUSY.0;
    }
    if !is_dir(entries, d) {
        return Errno::ENOTDIR.0;
    }
    0
}

// A name that an entry is to get in the directory: a bad one, or a taken one.
pub fn new_name(entries: &[u64], names: &[u8], d: u64, name: &[u8]) -> u64
    ensures { result ≡ first (new_name entries.now names.now d name.now) }
{
    let e = name_checks(name);
    if e != 0 {
        return e;
    }
    if is_taken(entries, names, d, name) {
        return Errno::EEXIST.0;
    }
    0
}
