// Fresh tables with names.
#![tactic(auto)]

ghost use Rattle.tables.specs.Tables.{tables};
ghost use Rattle.std.specs.Prelude.{◌≡◌, length, replicate};
ghost use Rattle.named.specs.Named.{with_names, named_outcome, freshened_named};

use access::errno::{Errno, Reply};
use access::limits::MAX_ENTRIES;
use names::NAME_WIDTH;

fn clear_names(names: &mut [u8])
    ensures { names.new ≡ replicate (length names.old) 0 }
{
    let mut i = 0;
    while i < names.len() {
        names[i] = 0;
        i += 1;
    }
}

// Makes fresh tables at a level, whatever they held: EIO for a wrong length, EINVAL for a level above 6.
pub fn fresh(
    system: &mut [u64],
    entries: &mut [u64],
    rulesets: &mut [u64],
    layers: &mut [u64],
    pool: &mut [u64],
    threads: &mut [u64],
    names: &mut [u8],
    level: u64,
) -> Reply
    ensures { named_outcome result (with_names (tables system.new entries.new rulesets.new layers.new pool.new threads.new) names.new) ≡ freshened_named (with_names (tables system.old entries.old rulesets.old layers.old pool.old threads.old) names.old) level }
{
    if names.len() != NAME_WIDTH * MAX_ENTRIES {
        return Reply::Refused(Errno::EIO);
    }
    let reply = fresh::fresh(system, entries, rulesets, layers, pool, threads, level);
    if reply.is_refused() {
        return reply;
    }
    clear_names(names);
    reply
}
