// The soundness test of one rule, the same for rulesets and layers.
#![tactic(auto)]

ghost use Rattle.std.specs.Prelude.{◌≡◌, ◌*◌, length};
ghost use Rattle.access.specs.Limits.{max_entries};
ghost use Rattle.tables.specs.Tables.{entry_width};
ghost use Rattle.sound_objects.specs.Objects.{Indexed};
ghost use Rattle.sound_rules.specs.Rules.{file_object, rights_fit, path_sound, port_sound, cells_sound, masks_known};

use access::limits::MAX_PORT;
use access::rights::Rights;
use sound_objects::{bucket_of, search};
use tables::rows::{DIRECTORY, ENTRY_WIDTH, PATH_RULE, PORT_RULE};

// Some live entry that is no directory has the object: by the node that stands for all entries of the object.
fn file_object(entries: &[u64], heads: &[u16], links: &[u16], object: u64) -> bool
    requires { (length entries.now ≡ entry_width * max_entries) × Indexed entries.now heads.now links.now }
    ensures { result ≡ file_object entries.now object }
{
    // In the index, which is zeroed at each call, 0 is no node.
    let root = heads[bucket_of(object)] as usize;
    if root == 0 {
        return false;
    }
    match search(entries, links, object, root) {
        Ok(e) => entries[ENTRY_WIDTH * e] != DIRECTORY,
        Err(_) => false,
    }
}

fn rights_fit(entries: &[u64], heads: &[u16], links: &[u16], object: u64, rights: Rights) -> bool
    requires { (length entries.now ≡ entry_width * max_entries) × Indexed entries.now heads.now links.now }
    ensures { result ≡ rights_fit entries.now object rights.0 }
{
    if Rights::FILE.contains(rights) {
        return true;
    }
    !file_object(entries, heads, links, object)
}

fn path_sound(
    entries: &[u64],
    heads: &[u16],
    links: &[u16],
    next: u64,
    fs: Rights,
    object: u64,
    rights: Rights,
) -> bool
    requires { (length entries.now ≡ entry_width * max_entries) × Indexed entries.now heads.now links.now }
    ensures { result ≡ path_sound entries.now next fs.0 object rights.0 }
{
    if object >= next {
        return false;
    }
    if rights.is_empty() {
        return false;
    }
    if !fs.contains(rights) {
        return false;
    }
    rights_fit(entries, heads, links, object, rights)
}

fn port_sound(net: Rights, port: u64, rights: Rights) -> bool
    ensures { result ≡ port_sound net.0 port rights.0 }
{
    if port > MAX_PORT {
        return false;
    }
    if rights.is_empty() {
        return false;
    }
    net.contains(rights)
}

pub fn cells_sound(
    entries: &[u64],
    heads: &[u16],
    links: &[u16],
    next: u64,
    fs: Rights,
    net: Rights,
    ty: u64,
    key: u64,
    rights: Rights,
) -> bool
    requires { (length entries.now ≡ entry_width * max_entries) × Indexed entries.now heads.now links.now }
    ensures { result ≡ cells_sound entries.now next fs.0 net.0 ty key rights.0 }
{
    // A cell, which may hold any number.
    match ty {
        PATH_RULE => path_sound(entries, heads, links, next, fs, key, rights),
        PORT_RULE => port_sound(net, key, rights),
        _ => false,
    }
}

// The level knows every right of the masks.
pub fn masks_known(level: u64, fs: Rights, net: Rights, scope: Rights) -> bool
    ensures { result ≡ masks_known level fs.0 net.0 scope.0 }
{
    if !Rights::known_fs(level).contains(fs) {
        return false;
    }
    if !Rights::known_net(level).contains(net) {
        return false;
    }
    Rights::known_scope(level).contains(scope)
}
