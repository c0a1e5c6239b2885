// The entry point of batches, on tables with names: soundness is tested once for all requests.
#![tactic(auto)]

ghost use Rattle.tables.specs.Tables.{tables};
ghost use Rattle.std.specs.Prelude.{◌≡◌, replicate};
ghost use Rattle.laws.specs.Refusals.{first};
ghost use Rattle.access.specs.Limits.{max_entries};
ghost use Rattle.sound_names_walk.specs.Fold.{buckets};
ghost use Rattle.sound_names_chains.specs.Chains.{IndexedIf};
ghost use Rattle.named.specs.Named.{with_names, named_sound, named_outcome};
ghost use Rattle.named.specs.Batch.{request_count, answers_to, batch_checks, batch_of, batch_named};

use access::errno::{Errno, Reply};
use access::limits::MAX_ENTRIES;
use batch_answers::{answer_all, answer_unsound};
use batch_requests::batch_checks;
use sound::is_sound;
use sound_names::{Indexed, names_indexed};
use sound_names_walk::BUCKETS;

// The soundness of all seven tables. Fills an index of the names, which starts as zeros.
fn tables_indexed(
    system: &[u64],
    entries: &[u64],
    rulesets: &[u64],
    layers: &[u64],
    pool: &[u64],
    threads: &[u64],
    names: &[u8],
    heads: &mut [u16],
    links: &mut [u16],
) -> Indexed
    requires { (heads.old ≡ replicate buckets 0) × (links.old ≡ replicate max_entries 0) }
    ensures { (result.sound ≡ named_sound (with_names (tables system.now entries.now rulesets.now layers.now pool.now threads.now) names.now)) × IndexedIf result.whole entries.now names.now heads.new links.new }
{
    if !is_sound(system, entries, rulesets, layers, pool, threads) {
        return Indexed {
            sound: false,
            whole: false,
        };
    }
    names_indexed(entries, names, heads, links)
}

// The answers, where the batch itself is not refused.
fn answer(
    system: &[u64],
    entries: &[u64],
    rulesets: &[u64],
    layers: &[u64],
    pool: &[u64],
    threads: &[u64],
    names: &[u8],
    requests: &[u64],
    asked: &[u8],
    answers: &mut [u64],
)
    requires { first (batch_checks requests.now answers.old) ≡ 0 }
    ensures { answers.new ≡ answers_to (with_names (tables system.now entries.now rulesets.now layers.now pool.now threads.now) names.now) requests.now asked.now answers.old (request_count requests.now) }
{
    let mut heads = [0u16; BUCKETS];
    let mut links = [0u16; MAX_ENTRIES];
    let indexed = tables_indexed(
        system, entries, rulesets, layers, pool, threads, names, &mut heads, &mut links,
    );
    if !indexed.sound {
        answer_unsound(
            system, entries, rulesets, layers, pool, threads, names, requests, asked, answers,
        );
        return;
    }
    answer_all(
        system,
        entries,
        rulesets,
        layers,
        pool,
        threads,
        names,
        &heads,
        &links,
        indexed.whole,
        requests,
        asked,
        answers,
    );
}

// Answers requests for access to entries and ports and for links, renames and exchanges, each as its call would up to and with the verdict, else 0:
// error number, layer, rights. EINVAL for a list that ends within a request, a request of another sort, or too little room; then no answer is
// written. Unsound tables are EIO in each answer.
pub fn batch(
    system: &[u64],
    entries: &[u64],
    rulesets: &[u64],
    layers: &[u64],
    pool: &[u64],
    threads: &[u64],
    names: &[u8],
    requests: &[u64],
    asked: &[u8],
    answers: &mut [u64],
) -> Reply
    ensures reply { named_outcome result (with_names (tables system.now entries.now rulesets.now layers.now pool.now threads.now) names.now) ≡ batch_named (with_names (tables system.now entries.now rulesets.now layers.now pool.now threads.now) names.now) requests.now asked.now answers.old }
    ensures answers { answers.new ≡ (batch_of (with_names (tables system.now entries.now rulesets.now layers.now pool.now threads.now) names.now) requests.now asked.now answers.old).answers }
{
    let e = batch_checks(requests, answers);
    if e != 0 {
        return Reply::Refused(Errno(e));
    }
    answer(
        system, entries, rulesets, layers, pool, threads, names, requests, asked, answers,
    );
    Reply::Done(0)
}
