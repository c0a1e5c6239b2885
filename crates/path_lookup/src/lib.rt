// The lookup of a path, component by component from the root.
#![tactic(auto)]

ghost use Rattle.std.specs.Prelude.{◌≡◌};
ghost use Rattle.laws.specs.Refusals.{first};
ghost use Rattle.tables.specs.Tables.{parent};
ghost use Rattle.names.specs.Paths.{path_checks, closing, arrived, step_to, found};
ghost use Rattle.path_lookup.specs.Lookup.{looked_up};

use access::errno::{Errno, Reply};
use name_bearer::bearer;
use name_checks::{has_byte, is_dot, is_dot_dot};
use names::{MAX_NAME, MAX_PATH, SLASH};
use path::{component_end, component_start};
use tables::rows::{is_dir, parent_of};
use tree::Replaced;

// The number with which a path is refused before it is walked, or 0.
fn path_checks(path: &[u8]) -> u64
    ensures { result ≡ first (path_checks path.now) }
{
    if path.len() == 0 {
        return Errno::ENOENT.0;
    }
    if path.len() > MAX_PATH {
        return Errno::ENAMETOOLONG.0;
    }
    if path[0] != SLASH {
        return Errno::EINVAL.0;
    }
    if has_byte(path, 0) {
        return Errno::EINVAL.0;
    }
    0
}

// The last byte is a slash.
fn is_closing(path: &[u8]) -> bool
    ensures { result ≡ closing path.now }
{
    if path.len() == 0 {
        return false;
    }
    path[path.len() - 1] == SLASH
}

// The answer at the end of the path: the entry, which a closing slash wants to be a directory.
fn arrived(entries: &[u64], path: &[u8], x: u64) -> Reply
    ensures { result ≡ arrived entries.now (closing path.now) x }
{
    if is_closing(path) {
        if !is_dir(entries, x) {
            return Reply::Refused(Errno::ENOTDIR);
        }
    }
    Reply::Done(x)
}

// Where ".." leads; the root is its own parent in sound tables.
fn up(entries: &[u64], e: u64) -> Replaced
    ensures { result ≡ Replaced.Entry (parent entries.now e) }
{
    Replaced::Entry(parent_of(entries, e))
}

// Where a component leads from the entry: "." stays, ".." goes to the parent, a name to the entry that bears it.
fn step_to(entries: &[u64], names: &[u8], e: u64, name: &[u8]) -> Replaced
    ensures { result ≡ step_to entries.now names.now e name.now }
{
    if is_dot(name) {
        return Replaced::Entry(e);
    }
    if is_dot_dot(name) {
        return up(entries, e);
    }
    bearer(entries, names, e, name)
}

// Walks the components of the path from the root.
fn walk(entries: &[u64], names: &[u8], path: &[u8]) -> Reply
    ensures { result ≡ found entries.now names.now path.now }
{
    let mut e = 0;
    let mut at = 0;
    loop {
        let from = component_start(path, at);
        if from >= path.len() {
            return arrived(entries, path, e);
        }
        if !is_dir(entries, e) {
            return Reply::Refused(Errno::ENOTDIR);
        }
        let to = component_end(path, from);
        if to - from > MAX_NAME {
            return Reply::Refused(Errno::ENAMETOOLONG);
        }
        let step = step_to(entries, names, e, &path[from..to]);
        let Replaced::Entry(x) = step else {
            return Reply::Refused(Errno::ENOENT);
        };
        e = x;
        at = to;
    }
}

// The entry that an absolute path names.
pub fn lookup(entries: &[u64], names: &[u8], path: &[u8]) -> Reply
    ensures { result ≡ looked_up entries.now names.now path.now }
{
    let code = path_checks(path);
    if code != 0 {
        return Reply::Refused(Errno(code));
    }
    walk(entries, names, path)
}
