// Access requests.
#![tactic(auto)]

ghost use Rattle.tables.specs.Tables.{tables};
ghost use Rattle.std.specs.Prelude.{◌≡◌};
ghost use Rattle.laws.specs.Refusals.{first};
ghost use Rattle.tables.specs.Outcome.{outcome, answer};
ghost use Rattle.judge.specs.Blame.{naming_entry};
ghost use Rattle.fs_access.specs.Access.{access_names, access_mask, access_checks, access_reads};

use access::errno::{Errno, Reply};
use access::rights::Rights;
use tables::rows::{entry_live, past_file_set, thread_live};
use verdict::thread_judged;

pub fn access_names(entries: &[u64], threads: &[u64], t: u64, e: u64) -> u64
    ensures { result ≡ first (access_names entries.now threads.now t e) }
{
    if !thread_live(threads, t) {
        return Errno::ESRCH.0;
    }
    if !entry_live(entries, e) {
        return Errno::ENOENT.0;
    }
    0
}

pub fn access_mask(entries: &[u64], e: u64, asked: Rights) -> u64
    ensures { result ≡ first (access_mask entries.now e asked.0) }
{
    if asked.is_empty() {
        return Errno::EINVAL.0;
    }
    if !Rights::ALL_FS.contains(asked) {
        return Errno::EINVAL.0;
    }
    if past_file_set(entries, e, asked) {
        return Errno::EINVAL.0;
    }
    0
}

// The answer to an access request, and how many entries' rules were read for it.
#[derive(Clone, Copy)]
pub struct Accessed {
    pub reply: Reply,
    pub read: u64,
}

// Whether the thread may use the entry with the rights.
pub fn access(
    system: &[u64],
    entries: &[u64],
    rulesets: &[u64],
    layers: &[u64],
    pool: &[u64],
    threads: &[u64],
    t: u64,
    e: u64,
    asked: Rights,
) -> Accessed
    ensures reply { outcome result.reply (tables system.now entries.now rulesets.now layers.now pool.now threads.now) ≡ naming_entry (tables system.now entries.now rulesets.now layers.now pool.now threads.now) t e asked.0 (answer (tables system.now entries.now rulesets.now layers.now pool.now threads.now) (access_checks (tables system.now entries.now rulesets.now layers.now pool.now threads.now) t e asked.0) (outcome (Reply.Done 0) (tables system.now entries.now rulesets.now layers.now pool.now threads.now))) }
    ensures read { result.read ≡ access_reads (tables system.now entries.now rulesets.now layers.now pool.now threads.now) t e asked.0 }
{
    let a = access_names(entries, threads, t, e);
    if a != 0 {
        return Accessed {
            reply: Reply::Refused(Errno(a)),
            read: 0,
        };
    }
    let b = access_mask(entries, e, asked);
    if b != 0 {
        return Accessed {
            reply: Reply::Refused(Errno(b)),
            read: 0,
        };
    }
    let judged = thread_judged(entries, layers, pool, threads, t, e, asked);
    let denial = judged.denial;
    Accessed {
        reply: denial.reply(),
        read: judged.read,
    }
}
