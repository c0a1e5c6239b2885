// The cells of each table by name, and the sizes of the rows.
ghost use Rattle.std.specs.Prelude.{◌≡◌, ◌<◌};
ghost use Rattle.laws.specs.Cells.{cell};
ghost use Rattle.tables.specs.Tables.{tables, entry_width, lengths_right, level, counter, layers_used, pool_used, kind, parent, object, live, is_dir, past_file_set, youngest, no_new_privs, admin, thread_live};
ghost use Rattle.tables.specs.Layers.{handles_any, ruleset_fs, ruleset_net, ruleset_scope, ruleset_count, is_open, layer_parent, layer_fs, layer_net, layer_scope, layer_first, layer_count, layer_holders, layer_in_use};

use access::limits::{MAX_ENTRIES, MAX_LAYERS, MAX_POOL, MAX_RULES, MAX_RULESETS, MAX_THREADS};
use access::rights::Rights;
use cells::{read, row_read};

pub const SYSTEM_WIDTH: usize = 4;

pub const ENTRY_WIDTH: usize = 3;

pub const RULE_WIDTH: usize = 3;
// The cells of a ruleset before its rules.
pub const RULESET_HEAD: usize = 4;

pub const RULESET_WIDTH: usize = RULESET_HEAD + RULE_WIDTH * MAX_RULES;

pub const LAYER_WIDTH: usize = 7;

pub const THREAD_WIDTH: usize = 4;

// The cells of each table.
pub const SYSTEM_CELLS: usize = SYSTEM_WIDTH;

pub const ENTRIES_CELLS: usize = ENTRY_WIDTH * MAX_ENTRIES;

pub const RULESETS_CELLS: usize = RULESET_WIDTH * MAX_RULESETS;

pub const LAYERS_CELLS: usize = LAYER_WIDTH * MAX_LAYERS;

pub const POOL_CELLS: usize = RULE_WIDTH * MAX_POOL;

pub const THREADS_CELLS: usize = THREAD_WIDTH * MAX_THREADS;

// The cells of the system's row.
pub const SYSTEM_LEVEL: usize = 0;

pub const SYSTEM_COUNTER: usize = 1;

pub const SYSTEM_LAYERS: usize = 2;

pub const SYSTEM_POOL: usize = 3;

// The cells of an entry's row.
pub const ENTRY_KIND: usize = 0;

pub const ENTRY_PARENT: usize = 1;

pub const ENTRY_OBJECT: usize = 2;

// The cells of a rule; its type is the first.
pub const RULE_KEY: usize = 1;

pub const RULE_RIGHTS: usize = 2;

// The cells of a ruleset's row.
pub const RULESET_FS: usize = 0;

pub const RULESET_NET: usize = 1;

pub const RULESET_SCOPE: usize = 2;

pub const RULESET_COUNT: usize = 3;

// The cells of a layer's row.
pub const LAYER_PARENT: usize = 0;

pub const LAYER_FS: usize = 1;

pub const LAYER_NET: usize = 2;

pub const LAYER_SCOPE: usize = 3;

pub const LAYER_FIRST: usize = 4;

pub const LAYER_COUNT: usize = 5;

pub const LAYER_HOLDERS: usize = 6;

// The cells of a thread's row.
pub const THREAD_STATE: usize = 0;

pub const THREAD_YOUNGEST: usize = 1;

pub const THREAD_PRIVS: usize = 2;

pub const THREAD_ADMIN: usize = 3;

// The types of rules.
pub const PATH_RULE: u64 = 1;

pub const PORT_RULE: u64 = 2;

// The kind of a directory.
pub const DIRECTORY: u64 = 2;
// The largest number of a kind.
pub const LAST_KIND: u64 = 7;

// Every table has its length.
pub fn lengths_right(
    system: &[u64],
    entries: &[u64],
    rulesets: &[u64],
    layers: &[u64],
    pool: &[u64],
    threads: &[u64],
) -> bool
    ensures { result ≡ lengths_right (tables system.now entries.now rulesets.now layers.now pool.now threads.now) }
{
    if system.len() != SYSTEM_CELLS {
        return false;
    }
    if entries.len() != ENTRIES_CELLS {
        return false;
    }
    if rulesets.len() != RULESETS_CELLS {
        return false;
    }
    if layers.len() != LAYERS_CELLS {
        return false;
    }
    if pool.len() != POOL_CELLS {
        return false;
    }
    threads.len() == THREADS_CELLS
}

pub fn level_of(system: &[u64]) -> u64
    ensures { result ≡ level system.now }
{
    read(system, SYSTEM_LEVEL)
}

pub fn counter_of(system: &[u64]) -> u64
    ensures { result ≡ counter system.now }
{
    read(system, SYSTEM_COUNTER)
}

pub fn layers_used(system: &[u64]) -> u64
    ensures { result ≡ layers_used system.now }
{
    read(system, SYSTEM_LAYERS)
}

pub fn pool_used(system: &[u64]) -> u64
    ensures { result ≡ pool_used system.now }
{
    read(system, SYSTEM_POOL)
}

// Cell `k` of an entry.
fn entry_cell(entries: &[u64], e: u64, k: usize) -> u64
    requires { k < entry_width }
    ensures { result ≡ cell entries.now entry_width e k }
{
    let i = e as usize;
    if i < entries.len() {
        let at = ENTRY_WIDTH * i + k;
        if at < entries.len() {
            return entries[at];
        }
    }
    0
}

pub fn kind_of(entries: &[u64], e: u64) -> u64
    ensures { result ≡ kind entries.now e }
{
    entry_cell(entries, e, ENTRY_KIND)
}

pub fn parent_of(entries: &[u64], e: u64) -> u64
    ensures { result ≡ parent entries.now e }
{
    entry_cell(entries, e, ENTRY_PARENT)
}

pub fn object_of(entries: &[u64], e: u64) -> u64
    ensures { result ≡ object entries.now e }
{
    entry_cell(entries, e, ENTRY_OBJECT)
}

pub fn entry_live(entries: &[u64], e: u64) -> bool
    ensures { result ≡ live entries.now e }
{
    kind_of(entries, e) != 0
}

pub fn is_dir(entries: &[u64], e: u64) -> bool
    ensures { result ≡ is_dir entries.now e }
{
    kind_of(entries, e) == DIRECTORY
}

// The entry is no directory, and some right is outside the file set.
pub fn past_file_set(entries: &[u64], e: u64, rights: Rights) -> bool
    ensures { result ≡ past_file_set entries.now e rights.0 }
{
    if is_dir(entries, e) {
        return false;
    }
    !Rights::FILE.contains(rights)
}

// Some mask is not empty.
pub fn handles_any(fs: Rights, net: Rights, scope: Rights) -> bool
    ensures { result ≡ handles_any fs.0 net.0 scope.0 }
{
    if !fs.is_empty() {
        return true;
    }
    if !net.is_empty() {
        return true;
    }
    !scope.is_empty()
}

pub fn ruleset_fs(rulesets: &[u64], r: u64) -> Rights
    ensures { result.0 ≡ ruleset_fs rulesets.now r }
{
    Rights(row_read(rulesets, RULESET_WIDTH, r as usize, RULESET_FS))
}

pub fn ruleset_net(rulesets: &[u64], r: u64) -> Rights
    ensures { result.0 ≡ ruleset_net rulesets.now r }
{
    Rights(row_read(rulesets, RULESET_WIDTH, r as usize, RULESET_NET))
}

pub fn ruleset_scope(rulesets: &[u64], r: u64) -> Rights
    ensures { result.0 ≡ ruleset_scope rulesets.now r }
{
    Rights(row_read(rulesets, RULESET_WIDTH, r as usize, RULESET_SCOPE))
}

pub fn ruleset_count(rulesets: &[u64], r: u64) -> u64
    ensures { result ≡ ruleset_count rulesets.now r }
{
    row_read(rulesets, RULESET_WIDTH, r as usize, RULESET_COUNT)
}

// The ruleset is open: one of its masks is not zero.
pub fn ruleset_open(rulesets: &[u64], r: u64) -> bool
    ensures { result ≡ is_open rulesets.now r }
{
    let fs = ruleset_fs(rulesets, r);
    let net = ruleset_net(rulesets, r);
    let scope = ruleset_scope(rulesets, r);
    handles_any(fs, net, scope)
}

// The layer's parent: its number + 1, or 0 for none.
pub fn layer_parent(layers: &[u64], l: u64) -> u64
    ensures { result ≡ layer_parent layers.now l }
{
    row_read(layers, LAYER_WIDTH, l as usize, LAYER_PARENT)
}

pub fn layer_fs(layers: &[u64], l: u64) -> Rights
    ensures { result.0 ≡ layer_fs layers.now l }
{
    Rights(row_read(layers, LAYER_WIDTH, l as usize, LAYER_FS))
}

pub fn layer_net(layers: &[u64], l: u64) -> Rights
    ensures { result.0 ≡ layer_net layers.now l }
{
    Rights(row_read(layers, LAYER_WIDTH, l as usize, LAYER_NET))
}

pub fn layer_scope(layers: &[u64], l: u64) -> Rights
    ensures { result.0 ≡ layer_scope layers.now l }
{
    Rights(row_read(layers, LAYER_WIDTH, l as usize, LAYER_SCOPE))
}

pub fn layer_first(layers: &[u64], l: u64) -> u64
    ensures { result ≡ layer_first layers.now l }
{
    row_read(layers, LAYER_WIDTH, l as usize, LAYER_FIRST)
}

pub fn layer_count(layers: &[u64], l: u64) -> u64
    ensures { result ≡ layer_count layers.now l }
{
    row_read(layers, LAYER_WIDTH, l as usize, LAYER_COUNT)
}

pub fn layer_holders(layers: &[u64], l: u64) -> u64
    ensures { result ≡ layer_holders layers.now l }
{
    row_read(layers, LAYER_WIDTH, l as usize, LAYER_HOLDERS)
}

// The layer is in use: something holds it.
pub fn layer_in_use(layers: &[u64], l: u64) -> bool
    ensures { result ≡ layer_in_use layers.now l }
{
    layer_holders(layers, l) != 0
}

pub fn thread_live(threads: &[u64], t: u64) -> bool
    ensures { result ≡ thread_live threads.now t }
{
    row_read(threads, THREAD_WIDTH, t as usize, THREAD_STATE) != 0
}

// The thread's youngest layer: its number + 1, or 0 for none.
pub fn youngest_of(threads: &[u64], t: u64) -> u64
    ensures { result ≡ youngest threads.now t }
{
    row_read(threads, THREAD_WIDTH, t as usize, THREAD_YOUNGEST)
}

pub fn no_new_privs_of(threads: &[u64], t: u64) -> u64
    ensures { result ≡ no_new_privs threads.now t }
{
    row_read(threads, THREAD_WIDTH, t as usize, THREAD_PRIVS)
}

pub fn admin_of(threads: &[u64], t: u64) -> u64
    ensures { result ≡ admin threads.now t }
{
    row_read(threads, THREAD_WIDTH, t as usize, THREAD_ADMIN)
}
