// The entry point of port requests.
ghost use Rattle.tables.specs.Tables.{tables};
ghost use Rattle.std.specs.Prelude.{◌≡◌};
ghost use Rattle.tables.specs.Outcome.{outcome};
ghost use Rattle.net.specs.Port.{port_call};

use access::errno::{Errno, Reply};
use access::rights::Rights;

// Whether a thread may use a port with the rights: EIO, ESRCH, EINVAL, EACCES.
pub fn port(
    system: &[u64],
    entries: &[u64],
    rulesets: &[u64],
    layers: &[u64],
    pool: &[u64],
    threads: &[u64],
    t: u64,
    port: u64,
    asked: Rights,
) -> Reply
    ensures { outcome result (tables system.now entries.now rulesets.now layers.now pool.now threads.now) ≡ port_call (tables system.now entries.now rulesets.now layers.now pool.now threads.now) t port asked.0 }
{
    if !sound::is_sound(system, entries, rulesets, layers, pool, threads) {
        return Reply::Refused(Errno::EIO);
    }
    net::port(
        system, entries, rulesets, layers, pool, threads, t, port, asked,
    )
}
