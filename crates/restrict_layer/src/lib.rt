// A new layer: its record, and how it is counted.
#![tactic(auto)]

ghost use Rattle.std.specs.Prelude.{◌≡◌, ◌+◌, ◌≤◌, ◌<◌};
ghost use Rattle.access.specs.Limits.{max_layers, max_pool};
ghost use Rattle.tables.specs.Tables.{layers_used, pool_used};
ghost use Rattle.domain_restrict.specs.Restrict.{free_layer, layer_row, counted};

use access::limits::MAX_LAYERS;
use access::rights::Rights;
use cells::{row_write, write};
use tables::rows::{
    LAYER_COUNT, LAYER_FIRST, LAYER_FS, LAYER_HOLDERS, LAYER_NET, LAYER_PARENT, LAYER_SCOPE,
    LAYER_WIDTH, SYSTEM_LAYERS, SYSTEM_POOL, layer_in_use, layers_used, pool_used,
};

// The lowest layer record not in use; the number of records if all are.
pub fn free_layer(layers: &[u64]) -> u64
    ensures { result ≡ free_layer layers.now }
{
    let mut l = 0;
    while l < MAX_LAYERS as u64 {
        if !layer_in_use(layers, l) {
            return l;
        }
        l += 1;
    }
    l
}

pub fn put_layer(
    layers: &mut [u64],
    l: u64,
    parent: u64,
    fs: Rights,
    net: Rights,
    scope: Rights,
    first: u64,
    count: u64,
)
    ensures { layers.new ≡ layer_row layers.old l parent fs.0 net.0 scope.0 first count }
{
    row_write(layers, LAYER_WIDTH, l as usize, LAYER_PARENT, parent);
    row_write(layers, LAYER_WIDTH, l as usize, LAYER_FS, fs.0);
    row_write(layers, LAYER_WIDTH, l as usize, LAYER_NET, net.0);
    row_write(layers, LAYER_WIDTH, l as usize, LAYER_SCOPE, scope.0);
    row_write(
        layers,
        LAYER_WIDTH,
        l as usize,
        LAYER_FIRST,
        if count == 0 { 0 } else { first },
    );
    row_write(layers, LAYER_WIDTH, l as usize, LAYER_COUNT, count);
    row_write(layers, LAYER_WIDTH, l as usize, LAYER_HOLDERS, 1);
}

// Counts the new layer and its rules.
pub fn count_layer(system: &mut [u64], count: u64)
    requires { (layers_used system.old < max_layers) × (pool_used system.old + count ≤ max_pool) }
    ensures { system.new ≡ counted system.old count }
{
    let l = layers_used(system);
    let p = pool_used(system);
    write(system, SYSTEM_LAYERS, l + 1);
    write(system, SYSTEM_POOL, p + count);
}
