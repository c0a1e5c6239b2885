// The entry points of fresh tables and of requests: each but fresh tests the tables first and answers EIO if they are not sound, then does the call. A refusal changes no cell.
#![tactic(auto)]

pub mod entries;
pub mod ports;
pub mod tasks;

ghost use Rattle.tables.specs.Tables.{tables};
ghost use Rattle.std.specs.Prelude.{◌≡◌};
ghost use Rattle.tables.specs.Fresh.{freshened};
ghost use Rattle.tables.specs.Outcome.{outcome};

use access::errno::Reply;

// Makes fresh tables at a level, whatever they held: EIO for a wrong length, EINVAL for a level above 6.
pub fn fresh(
    system: &mut [u64],
    entries: &mut [u64],
    rulesets: &mut [u64],
    layers: &mut [u64],
    pool: &mut [u64],
    threads: &mut [u64],
    level: u64,
) -> Reply
    ensures { outcome result (tables system.new entries.new rulesets.new layers.new pool.new threads.new) ≡ freshened (tables system.old entries.old rulesets.old layers.old pool.old threads.old) level }
{
    fresh::fresh(system, entries, rulesets, layers, pool, threads, level)
}
