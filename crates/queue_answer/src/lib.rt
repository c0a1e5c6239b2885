// An answer to a request of the queue.
#![tactic(auto)]

ghost use Rattle.named.specs.Named.{with_names};
ghost use Rattle.tables.specs.Tables.{tables};
ghost use Rattle.std.specs.Prelude.{◌≡◌};
ghost use Rattle.named.specs.Queue.{answer_of};

use access::rights::Rights;
use codes::{denied_rights, error_number, named_layer};
use queue::Answer;

// What the tables answer a request.
pub fn answer(
    system: &[u64],
    entries: &[u64],
    rulesets: &[u64],
    layers: &[u64],
    pool: &[u64],
    threads: &[u64],
    names: &[u8],
    t: u64,
    e: u64,
    m: u64,
) -> Answer
    ensures { result ≡ answer_of (with_names (tables system.now entries.now rulesets.now layers.now pool.now threads.now) names.now) t e m }
{
    let accessed = syscalls::access(
        system,
        entries,
        rulesets,
        layers,
        pool,
        threads,
        names,
        t,
        e,
        Rights(m),
    );
    let reply = accessed.reply;
    Answer {
        error: error_number(reply),
        layer: named_layer(reply),
        rights: denied_rights(reply),
        read: accessed.read,
    }
}
