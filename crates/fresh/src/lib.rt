// Fresh tables.
#![tactic(auto)]

ghost use Rattle.tables.specs.Tables.{tables};
ghost use Rattle.std.specs.Prelude.{◌≡◌, length, set, replicate};
ghost use Rattle.laws.specs.Refusals.{first};
ghost use Rattle.tables.specs.Outcome.{outcome};
ghost use Rattle.tables.specs.Fresh.{filled, fresh_checks, freshened};

use access::errno::{Errno, Reply};
use access::limits::MAX_LEVEL;
use cells::{clear, write};
use tables::rows::{DIRECTORY, SYSTEM_COUNTER, lengths_right};

fn fresh_checks(
    system: &[u64],
    entries: &[u64],
    rulesets: &[u64],
    layers: &[u64],
    pool: &[u64],
    threads: &[u64],
    level: u64,
) -> u64
    ensures { result ≡ first (fresh_checks (tables system.now entries.now rulesets.now layers.now pool.now threads.now) level) }
{
    let right = lengths_right(system, entries, rulesets, layers, pool, threads);
    let high = MAX_LEVEL < level;
    if !right {
        return Errno::EIO.0;
    }
    if high {
        return Errno::EINVAL.0;
    }
    0
}

// A table of zeros but for its first cell.
fn clear_but_first(t: &mut [u64], v: u64)
    ensures { t.new ≡ set (replicate (length t.old) 0) 0 v }
{
    clear(t);
    write(t, 0, v);
}

fn fill(
    system: &mut [u64],
    entries: &mut [u64],
    rulesets: &mut [u64],
    layers: &mut [u64],
    pool: &mut [u64],
    threads: &mut [u64],
    level: u64,
)
    ensures { tables system.new entries.new rulesets.new layers.new pool.new threads.new ≡ filled (tables system.old entries.old rulesets.old layers.old pool.old threads.old) level }
{
    clear_but_first(system, level);
    write(system, SYSTEM_COUNTER, 1);
    clear_but_first(entries, DIRECTORY);
    clear(rulesets);
    clear(layers);
    clear(pool);
    clear_but_first(threads, 1);
}

// Makes fresh tables at a level, whatever the tables held: entry 0, thread 0, and nothing else.
pub fn fresh(
    system: &mut [u64],
    entries: &mut [u64],
    rulesets: &mut [u64],
    layers: &mut [u64],
    pool: &mut [u64],
    threads: &mut [u64],
    level: u64,
) -> Reply
    ensures { outcome result (tables system.new entries.new rulesets.new layers.new pool.new threads.new) ≡ freshened (tables system.old entries.old rulesets.old layers.old pool.old threads.old) level }
{
    let e = fresh_checks(system, entries, rulesets, layers, pool, threads, level);
    if e != 0 {
        return Reply::Refused(Errno(e));
    }
    fill(system, entries, rulesets, layers, pool, threads, level);
    Reply::Done(0)
}
