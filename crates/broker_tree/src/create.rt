// The entry point of create.
ghost use Rattle.tables.specs.Tables.{tables};
ghost use Rattle.std.specs.Prelude.{◌≡◌};
ghost use Rattle.tables.specs.Outcome.{outcome};
ghost use Rattle.tree.specs.Create.{tree_create};

use access::errno::{Errno, Reply};

// Makes an entry of a kind in a directory: EIO, ESRCH, ENOENT, ENOTDIR, EINVAL, EACCES, ENOSPC. Answers its number.
pub fn create(
    system: &mut [u64],
    entries: &mut [u64],
    rulesets: &[u64],
    layers: &[u64],
    pool: &[u64],
    threads: &[u64],
    t: u64,
    d: u64,
    k: u64,
) -> Reply
    ensures { outcome result (tables system.new entries.new rulesets.now layers.now pool.now threads.now) ≡ tree_create (tables system.old entries.old rulesets.now layers.now pool.now threads.now) t d k }
{
    if !sound::is_sound(system, entries, rulesets, layers, pool, threads) {
        return Reply::Refused(Errno::EIO);
    }
    tree_create::create::create(system, entries, rulesets, layers, pool, threads, t, d, k)
}
