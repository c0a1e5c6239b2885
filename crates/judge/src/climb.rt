// What one layer grants and denies an entry.
ghost use Rattle.std.specs.Prelude.{◌≡◌, ◌+◌, ◌-◌, ◌≤◌};
ghost use Rattle.access.specs.Rights.{without};
ghost use Rattle.tables.specs.Layers.{layer_at};
ghost use Rattle.access.specs.Limits.{max_entries};
ghost use Rattle.judge.specs.Judge.{own_rights, grants, handled_by, missing, port_missing};
ghost use Rattle.judge.specs.Read.{read_up, layer_reads};

use crate::rules::{layer_rules, rights_on};
use access::limits::MAX_ENTRIES;
use access::rights::Rights;
use tables::rows::{PATH_RULE, PORT_RULE, layer_fs, layer_net, object_of, parent_of};

// The rights of the layer's rule on the entry's object.
pub fn own_rights(entries: &[u64], rules: &[u64], e: u64) -> Rights
    ensures { result.0 ≡ own_rights entries.now rules.now e }
{
    rights_on(rules, PATH_RULE, object_of(entries, e))
}

// Climbs from the entry until none of the rights is missing, or to the root; `left` climbs are left. The rights that no rule on the way grants
// are the answer, and `read` becomes the number of entries whose rules were read. What a call hands on fits in registers: references to the
// slices, and numbers.
pub fn climb(
    entries: &&[u64],
    rules: &&[u64],
    e: u64,
    asked: Rights,
    left: usize,
    read: &mut u64,
) -> u64
    requires { left ≤ max_entries }
    ensures missing { result ≡ without asked.0 (grants entries.now.now rules.now.now left e) }
    ensures read { read.new ≡ max_entries - left + read_up entries.now.now rules.now.now left e asked.0 }
{
    let before = (MAX_ENTRIES - left) as u64;
    if asked.is_empty() {
        *read = before;
        return asked.0;
    }
    let missing = asked.without(own_rights(*entries, *rules, e));
    if e == 0 {
        *read = before + 1;
        return missing.0;
    }
    if left == 0 {
        *read = before + 1;
        return missing.0;
    }
    climb(
        entries,
        rules,
        parent_of(*entries, e),
        missing,
        left - 1,
        read,
    )
}

// What a climb from an entry finds: the rights that no rule on the way grants, and how many entries' rules it read.
#[derive(Clone, Copy)]
pub struct Climbed {
    pub missing: Rights,
    pub read: u64,
}

// The rights that a file system mask handles: REFER unasked, unless it is empty.
pub fn handled_by(fs: Rights) -> Rights
    ensures { result.0 ≡ handled_by fs.0 }
{
    if fs.is_empty() {
        return Rights::NONE;
    }
    fs.join(Rights::REFER)
}

// Of the rights asked for at an entry, those that the layer denies, and how many entries' rules were read for it.
pub fn layer_climb(
    entries: &[u64],
    layers: &[u64],
    pool: &[u64],
    l: u64,
    e: u64,
    asked: Rights,
) -> Climbed
    ensures missing { result.missing.0 ≡ missing entries.now (layer_at layers.now pool.now l) e asked.0 }
    ensures read { result.read ≡ layer_reads entries.now (layer_at layers.now pool.now l) e asked.0 }
{
    let rules = layer_rules(layers, pool, l);
    let mut read = 0;
    let missing = climb(
        &entries,
        &rules,
        e,
        asked.meet(handled_by(layer_fs(layers, l))),
        MAX_ENTRIES,
        &mut read,
    );
    Climbed {
        missing: Rights(missing),
        read,
    }
}

// Of the rights asked for at a port, those that the layer denies.
pub fn layer_port_missing(layers: &[u64], pool: &[u64], l: u64, port: u64, asked: Rights) -> Rights
    ensures { result.0 ≡ port_missing (layer_at layers.now pool.now l) port asked.0 }
{
    let net = layer_net(layers, l);
    let rules = layer_rules(layers, pool, l);
    asked.meet(net).without(rights_on(rules, PORT_RULE, port))
}
