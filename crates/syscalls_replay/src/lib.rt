// The entry point of replay: the changes of a log made on tables with names.
#![tactic(auto)]

ghost use Rattle.tables.specs.Tables.{tables};
ghost use Rattle.std.specs.Prelude.{◌≡◌};
ghost use Rattle.named.specs.Named.{with_names, named_outcome};
ghost use Rattle.tree_log.specs.Replay.{replay_named};

use access::errno::{Errno, Reply};
use cells::write;
use log_copies::replay_tree;
use log_replay::Replay;
use named_sound::named_sound;
use tables::rows::{SYSTEM_COUNTER, counter_of};

// Replays the written bytes of a log: EIO, EBADMSG. Answers how many bytes at its tail were dropped.
pub fn replay(
    system: &mut [u64],
    entries: &mut [u64],
    rulesets: &[u64],
    layers: &[u64],
    pool: &[u64],
    threads: &[u64],
    names: &mut [u8],
    log: &[u8],
) -> Reply
    ensures { named_outcome result (with_names (tables system.new entries.new rulesets.now layers.now pool.now threads.now) names.new) ≡ replay_named (with_names (tables system.old entries.old rulesets.now layers.now pool.now threads.now) names.old) log.now }
{
    if !named_sound(system, entries, rulesets, layers, pool, threads, names) {
        return Reply::Refused(Errno::EIO);
    }
    let mut next = counter_of(system);
    let replayed = replay_tree(entries, names, &mut next, log);
    let Replay::Applied(dropped) = replayed else {
        return Reply::Refused(Errno::EBADMSG);
    };
    write(system, SYSTEM_COUNTER, next);
    Reply::Done(dropped as u64)
}
