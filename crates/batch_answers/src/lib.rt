// The answers of a batch, one request after the other.
#![tactic(auto)]

ghost use Rattle.std.specs.Prelude.{◌≡◌, true, false};
ghost use Rattle.laws.specs.Refusals.{first};
ghost use Rattle.sound_names_chains.specs.Chains.{IndexedIf};
ghost use Rattle.named.specs.Named.{with_names, named_sound};
ghost use Rattle.tables.specs.Tables.{tables};
ghost use Rattle.named.specs.Batch.{request_count, answers_to, batch_checks};

use access::errno::{Errno, Reply};
use access::limits::MAX_ENTRIES;
use batch_reply::request_reply;
use batch_requests::{REQUEST_WIDTH, put_answer, request_at};
use denied_rows::{ROWS_CELLS, layers_top};
use domain_order::{ORDERS_CELLS, fill_orders};
use fs::table::needs_table;

// The answers on sound tables. The layers of each thread are kept in `orders`, what each layer denies each entry in `rows`.
pub fn answer_all(
    system: &[u64],
    entries: &[u64],
    rulesets: &[u64],
    layers: &[u64],
    pool: &[u64],
    threads: &[u64],
    names: &[u8],
    heads: &[u16],
    links: &[u16],
    whole: bool,
    requests: &[u64],
    asked: &[u8],
    answers: &mut [u64],
)
    requires { (named_sound (with_names (tables system.now entries.now rulesets.now layers.now pool.now threads.now) names.now) ≡ true) × (IndexedIf whole entries.now names.now heads.now links.now × (first (batch_checks requests.now answers.old) ≡ 0)) }
    ensures { answers.new ≡ answers_to (with_names (tables system.now entries.now rulesets.now layers.now pool.now threads.now) names.now) requests.now asked.now answers.old (request_count requests.now) }
{
    let needs = needs_table();
    let mut orders = [0u16; ORDERS_CELLS];
    fill_orders(layers, threads, &mut orders);
    let mut rows = [0u16; ROWS_CELLS];
    let mut marks = [0u8; MAX_ENTRIES];
    let top = layers_top(layers);
    let n = requests.len() / REQUEST_WIDTH;
    let mut i = 0;
    while i < n {
        let reply = request_reply(
            system,
            entries,
            rulesets,
            layers,
            pool,
            threads,
            names,
            &needs,
            heads,
            links,
            whole,
            &orders,
            &mut rows,
            &mut marks,
            top,
            request_at(requests, i),
            asked,
        );
        put_answer(answers, i, reply);
        i += 1;
    }
}

// The answers on unsound tables: EIO, no layer and no rights for each.
pub fn answer_unsound(
    system: &[u64],
    entries: &[u64],
    rulesets: &[u64],
    layers: &[u64],
    pool: &[u64],
    threads: &[u64],
    names: &[u8],
    requests: &[u64],
    asked: &[u8],
    answers: &mut [u64],
)
    requires { (named_sound (with_names (tables system.now entries.now rulesets.now layers.now pool.now threads.now) names.now) ≡ false) × (first (batch_checks requests.now answers.old) ≡ 0) }
    ensures { answers.new ≡ answers_to (with_names (tables system.now entries.now rulesets.now layers.now pool.now threads.now) names.now) requests.now asked.now answers.old (request_count requests.now) }
{
    let n = requests.len() / REQUEST_WIDTH;
    let mut i = 0;
    while i < n {
        put_answer(answers, i, Reply::Refused(Errno::EIO));
        i += 1;
    }
}
