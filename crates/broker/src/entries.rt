// The entry point of access requests.
ghost use Rattle.tables.specs.Tables.{tables};
ghost use Rattle.std.specs.Prelude.{◌≡◌};
ghost use Rattle.tables.specs.Outcome.{outcome};
ghost use Rattle.fs_access.specs.Access.{access_call, access_count};

use access::errno::{Errno, Reply};
use access::rights::Rights;
use fs_access::Accessed;

// Whether a thread may use an entry with the rights: EIO, ESRCH, ENOENT, EINVAL, EACCES. Says also how many entries' rules were read: 0 before the
// verdict.
pub fn access(
    system: &[u64],
    entries: &[u64],
    rulesets: &[u64],
    layers: &[u64],
    pool: &[u64],
    threads: &[u64],
    t: u64,
    e: u64,
    asked: Rights,
) -> Accessed
    ensures reply { outcome result.reply (tables system.now entries.now rulesets.now layers.now pool.now threads.now) ≡ access_call (tables system.now entries.now rulesets.now layers.now pool.now threads.now) t e asked.0 }
    ensures read { result.read ≡ access_count (tables system.now entries.now rulesets.now layers.now pool.now threads.now) t e asked.0 }
{
    if !sound::is_sound(system, entries, rulesets, layers, pool, threads) {
        return Accessed {
            reply: Reply::Refused(Errno::EIO),
            read: 0,
        };
    }
    fs_access::access(
        system, entries, rulesets, layers, pool, threads, t, e, asked,
    )
}
