// The entry point of remove.
ghost use Rattle.tables.specs.Tables.{tables};
ghost use Rattle.std.specs.Prelude.{◌≡◌};
ghost use Rattle.tables.specs.Outcome.{outcome};
ghost use Rattle.tree.specs.Create.{tree_remove};

use access::errno::{Errno, Reply};

// Removes an entry: EIO, ESRCH, ENOENT, EBUSY, EACCES, ENOTEMPTY.
pub fn remove(
    system: &[u64],
    entries: &mut [u64],
    rulesets: &[u64],
    layers: &[u64],
    pool: &[u64],
    threads: &[u64],
    t: u64,
    e: u64,
) -> Reply
    ensures { outcome result (tables system.now entries.new rulesets.now layers.now pool.now threads.now) ≡ tree_remove (tables system.now entries.old rulesets.now layers.now pool.now threads.now) t e }
{
    if !sound::is_sound(system, entries, rulesets, layers, pool, threads) {
        return Reply::Refused(Errno::EIO);
    }
    tree_remove::remove(system, entries, rulesets, layers, pool, threads, t, e)
}
