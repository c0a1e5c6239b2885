// What C and Rust call: every call of the broker, with its arguments as numbers and its reply as one number. A call with a verdict also writes a
// report: the layer that refused (its number + 1, or 0 for none) and what it denies, for access also how many entries' rules were read; a
// shorter one gets the cells that it has.
#![tactic(auto)]

ghost use Rattle.std.specs.Prelude.{◌≡◌, cond, ◌*◌, min, eqb, length, set};
ghost use Rattle.tables.specs.Tables.{tables, rule_width};
ghost use Rattle.tables.specs.Layers.{layer_first};
ghost use Rattle.queue.specs.Queue.{queue, post, turn};
ghost use Rattle.ruleset.specs.Create.{created, closed};
ghost use Rattle.rule.specs.Rule.{path_added, port_added};
ghost use Rattle.domain_restrict.specs.Restrict.{restrict_call};
ghost use Rattle.domain.specs.Layer.{layer_read, layer_part};
ghost use Rattle.domain.specs.Threads.{cloned, privs_set, admin_set};
ghost use Rattle.domain_end.specs.End.{end_call};
ghost use Rattle.fs_access.specs.Access.{access_call, access_count};
ghost use Rattle.net.specs.Port.{port_call};
ghost use Rattle.task.specs.Task.{task_call};
ghost use Rattle.task.specs.declared.Scope.TheVariants.{AbstractSocket, Signal};
ghost use Rattle.names.specs.Paths.{path_checks, found, component};
ghost use Rattle.named.specs.Named.{with_names, named_outcome, named_call, lift, lift_count, lift_part, freshened_named};
ghost use Rattle.named.specs.Queue.{answer_of, turn_named};
ghost use Rattle.named.specs.Batch.{batch_of, batch_named};
ghost use Rattle.named.specs.Write.{write_named, written_out};
ghost use Rattle.path.specs.Span.{shown_start};
ghost use Rattle.tree_log.specs.Changes.{create, remove, link, rename, exchange};
ghost use Rattle.tree_log.specs.Replay.{replay_named};
ghost use Rattle.tree_log.specs.Logged.{logged_outcome, logged_log};
ghost use Rattle.log_calls.specs.Logs.{log_of};
ghost use Rattle.capi.specs.Codes.{Answers, Tells, TellsAccess, FindsPolicy, AppliesPolicy, Posts, span_from};

use access::rights::Rights;
use codes::{code_of, number, report, report_access, report_denial};
use judge::rules::cells_of;
use path::component_span;
use queue::served_reply;
use tables::rows::layer_first;

fn span_from(layers: &[u64], cells: usize, l: u64, code: u64) -> usize
    ensures { result ≡ cond (eqb code 0) (min (rule_width * layer_first layers.now l) cells) 0 }
{
    if code != 0 {
        return 0;
    }
    cells_of(layer_first(layers, l), cells)
}

#[unsafe(no_mangle)]
pub extern "C" fn skein_fresh(
    system: &mut [u64],
    entries: &mut [u64],
    rulesets: &mut [u64],
    layers: &mut [u64],
    pool: &mut [u64],
    threads: &mut [u64],
    names: &mut [u8],
    level: u64,
) -> u64
    ensures { Answers result (with_names (tables system.new entries.new rulesets.new layers.new pool.new threads.new) names.new) (freshened_named (with_names (tables system.old entries.old rulesets.old layers.old pool.old threads.old) names.old) level) }
{
    number(syscalls::fresh(
        system, entries, rulesets, layers, pool, threads, names, level,
    ))
}

#[unsafe(no_mangle)]
pub extern "C" fn skein_create_ruleset(
    system: &[u64],
    entries: &[u64],
    rulesets: &mut [u64],
    layers: &[u64],
    pool: &[u64],
    threads: &[u64],
    names: &[u8],
    bytes: &[u8],
    flags: u64,
) -> u64
    ensures answer { Answers result (with_names (tables system.now entries.now rulesets.new layers.now pool.now threads.now) names.now) (lift (with_names (tables system.now entries.now rulesets.old layers.now pool.now threads.now) names.now) (created (with_names (tables system.now entries.now rulesets.old layers.now pool.now threads.now) names.now).core bytes.now flags)) }
    ensures bytes { bytes.now ≡ bytes.now }
{
    number(syscalls_rulesets::create_ruleset(
        system, entries, rulesets, layers, pool, threads, names, bytes, flags,
    ))
}

#[unsafe(no_mangle)]
pub extern "C" fn skein_close_ruleset(
    system: &[u64],
    entries: &[u64],
    rulesets: &mut [u64],
    layers: &[u64],
    pool: &[u64],
    threads: &[u64],
    names: &[u8],
    r: u64,
) -> u64
    ensures { Answers result (with_names (tables system.now entries.now rulesets.new layers.now pool.now threads.now) names.now) (lift (with_names (tables system.now entries.now rulesets.old layers.now pool.now threads.now) names.now) (closed (with_names (tables system.now entries.now rulesets.old layers.now pool.now threads.now) names.now).core r)) }
{
    number(syscalls_rulesets::close_ruleset(
        system, entries, rulesets, layers, pool, threads, names, r,
    ))
}

#[unsafe(no_mangle)]
pub extern "C" fn skein_add_path_rule(
    system: &[u64],
    entries: &[u64],
    rulesets: &mut [u64],
    layers: &[u64],
    pool: &[u64],
    threads: &[u64],
    names: &[u8],
    r: u64,
    e: u64,
    rights: u64,
    flags: u64,
) -> u64
    ensures { Answers result (with_names (tables system.now entries.now rulesets.new layers.now pool.now threads.now) names.now) (lift (with_names (tables system.now entries.now rulesets.old layers.now pool.now threads.now) names.now) (path_added (with_names (tables system.now entries.now rulesets.old layers.now pool.now threads.now) names.now).core r e rights flags)) }
{
    number(syscalls_rulesets::add_path_rule(
        system,
        entries,
        rulesets,
        layers,
        pool,
        threads,
        names,
        r,
        e,
        Rights(rights),
        flags,
    ))
}

#[unsafe(no_mangle)]
pub extern "C" fn skein_add_port_rule(
    system: &[u64],
    entries: &[u64],
    rulesets: &mut [u64],
    layers: &[u64],
    pool: &[u64],
    threads: &[u64],
    names: &[u8],
    r: u64,
    p: u64,
    rights: u64,
    flags: u64,
) -> u64
    ensures { Answers result (with_names (tables system.now entries.now rulesets.new layers.now pool.now threads.now) names.now) (lift (with_names (tables system.now entries.now rulesets.old layers.now pool.now threads.now) names.now) (port_added (with_names (tables system.now entries.now rulesets.old layers.now pool.now threads.now) names.now).core r p rights flags)) }
{
    number(syscalls_rulesets::add_port_rule(
        system,
        entries,
        rulesets,
        layers,
        pool,
        threads,
        names,
        r,
        p,
        Rights(rights),
        flags,
    ))
}

#[unsafe(no_mangle)]
pub extern "C" fn skein_restrict(
    system: &mut [u64],
    entries: &[u64],
    rulesets: &[u64],
    layers: &mut [u64],
    pool: &mut [u64],
    threads: &mut [u64],
    names: &[u8],
    t: u64,
    r: u64,
    flags: u64,
) -> u64
    ensures { Answers result (with_names (tables system.new entries.now rulesets.now layers.new pool.new threads.new) names.now) (lift (with_names (tables system.old entries.now rulesets.now layers.old pool.old threads.old) names.now) (restrict_call (with_names (tables system.old entries.now rulesets.now layers.old pool.old threads.old) names.now).core t r flags)) }
{
    number(syscalls_domains::restrict(
        system, entries, rulesets, layers, pool, threads, names, t, r, flags,
    ))
}

#[unsafe(no_mangle)]
pub extern "C" fn skein_clone(
    system: &[u64],
    entries: &[u64],
    rulesets: &[u64],
    layers: &mut [u64],
    pool: &[u64],
    threads: &mut [u64],
    names: &[u8],
    t: u64,
) -> u64
    ensures { Answers result (with_names (tables system.now entries.now rulesets.now layers.new pool.now threads.new) names.now) (lift (with_names (tables system.now entries.now rulesets.now layers.old pool.now threads.old) names.now) (cloned (with_names (tables system.now entries.now rulesets.now layers.old pool.now threads.old) names.now).core t)) }
{
    number(syscalls_domains::clone_thread(
        system, entries, rulesets, layers, pool, threads, names, t,
    ))
}

#[unsafe(no_mangle)]
pub extern "C" fn skein_end(
    system: &mut [u64],
    entries: &[u64],
    rulesets: &[u64],
    layers: &mut [u64],
    pool: &mut [u64],
    threads: &mut [u64],
    names: &[u8],
    t: u64,
) -> u64
    ensures { Answers result (with_names (tables system.new entries.now rulesets.now layers.new pool.new threads.new) names.now) (lift (with_names (tables system.old entries.now rulesets.now layers.old pool.old threads.old) names.now) (end_call (with_names (tables system.old entries.now rulesets.now layers.old pool.old threads.old) names.now).core t)) }
{
    number(syscalls_domains::end_thread(system, entries, rulesets, layers, pool, threads, names, t))
}

#[unsafe(no_mangle)]
pub extern "C" fn skein_set_no_new_privs(
    system: &[u64],
    entries: &[u64],
    rulesets: &[u64],
    layers: &[u64],
    pool: &[u64],
    threads: &mut [u64],
    names: &[u8],
    t: u64,
) -> u64
    ensures { Answers result (with_names (tables system.now entries.now rulesets.now layers.now pool.now threads.new) names.now) (lift (with_names (tables system.now entries.now rulesets.now layers.now pool.now threads.old) names.now) (privs_set (with_names (tables system.now entries.now rulesets.now layers.now pool.now threads.old) names.now).core t)) }
{
    number(syscalls_domains::set_no_new_privs(
        system, entries, rulesets, layers, pool, threads, names, t,
    ))
}

#[unsafe(no_mangle)]
pub extern "C" fn skein_set_admin(
    system: &[u64],
    entries: &[u64],
    rulesets: &[u64],
    layers: &[u64],
    pool: &[u64],
    threads: &mut [u64],
    names: &[u8],
    t: u64,
    on: u64,
) -> u64
    ensures { Answers result (with_names (tables system.now entries.now rulesets.now layers.now pool.now threads.new) names.now) (lift (with_names (tables system.now entries.now rulesets.now layers.now pool.now threads.old) names.now) (admin_set (with_names (tables system.now entries.now rulesets.now layers.now pool.now threads.old) names.now).core t on)) }
{
    number(syscalls_domains::set_admin(
        system, entries, rulesets, layers, pool, threads, names, t, on,
    ))
}

#[unsafe(no_mangle)]
pub extern "C" fn skein_access(
    system: &[u64],
    entries: &[u64],
    rulesets: &[u64],
    layers: &[u64],
    pool: &[u64],
    threads: &[u64],
    names: &[u8],
    t: u64,
    e: u64,
    rights: u64,
    report: &mut [u64],
) -> u64
    ensures { TellsAccess result (with_names (tables system.now entries.now rulesets.now layers.now pool.now threads.now) names.now) report.old report.new (lift (with_names (tables system.now entries.now rulesets.now layers.now pool.now threads.now) names.now) (access_call (with_names (tables system.now entries.now rulesets.now layers.now pool.now threads.now) names.now).core t e rights)) (lift_count (with_names (tables system.now entries.now rulesets.now layers.now pool.now threads.now) names.now) (access_count (with_names (tables system.now entries.now rulesets.now layers.now pool.now threads.now) names.now).core t e rights)) }
{
    let accessed = syscalls::access(
        system,
        entries,
        rulesets,
        layers,
        pool,
        threads,
        names,
        t,
        e,
        Rights(rights),
    );
    let reply = accessed.reply;
    report_access(report, reply, accessed.read);
    number(reply)
}

#[unsafe(no_mangle)]
pub extern "C" fn skein_port(
    system: &[u64],
    entries: &[u64],
    rulesets: &[u64],
    layers: &[u64],
    pool: &[u64],
    threads: &[u64],
    names: &[u8],
    t: u64,
    p: u64,
    rights: u64,
    report: &mut [u64],
) -> u64
    ensures { Tells result (with_names (tables system.now entries.now rulesets.now layers.now pool.now threads.now) names.now) report.old report.new (lift (with_names (tables system.now entries.now rulesets.now layers.now pool.now threads.now) names.now) (port_call (with_names (tables system.now entries.now rulesets.now layers.now pool.now threads.now) names.now).core t p rights)) }
{
    let reply = syscalls::port(
        system,
        entries,
        rulesets,
        layers,
        pool,
        threads,
        names,
        t,
        p,
        Rights(rights),
    );
    report_denial(report, reply);
    number(reply)
}

#[unsafe(no_mangle)]
pub extern "C" fn skein_signal(
    system: &[u64],
    entries: &[u64],
    rulesets: &[u64],
    layers: &[u64],
    pool: &[u64],
    threads: &[u64],
    names: &[u8],
    t: u64,
    u: u64,
) -> u64
    ensures { Answers result (with_names (tables system.now entries.now rulesets.now layers.now pool.now threads.now) names.now) (lift (with_names (tables system.now entries.now rulesets.now layers.now pool.now threads.now) names.now) (task_call (with_names (tables system.now entries.now rulesets.now layers.now pool.now threads.now) names.now).core t u Signal)) }
{
    number(syscalls::signal(
        system, entries, rulesets, layers, pool, threads, names, t, u,
    ))
}

#[unsafe(no_mangle)]
pub extern "C" fn skein_abstract_socket(
    system: &[u64],
    entries: &[u64],
    rulesets: &[u64],
    layers: &[u64],
    pool: &[u64],
    threads: &[u64],
    names: &[u8],
    t: u64,
    u: u64,
) -> u64
    ensures { Answers result (with_names (tables system.now entries.now rulesets.now layers.now pool.now threads.now) names.now) (lift (with_names (tables system.now entries.now rulesets.now layers.now pool.now threads.now) names.now) (task_call (with_names (tables system.now entries.now rulesets.now layers.now pool.now threads.now) names.now).core t u AbstractSocket)) }
{
    number(syscalls::abstract_socket(
        system, entries, rulesets, layers, pool, threads, names, t, u,
    ))
}

#[unsafe(no_mangle)]
pub extern "C" fn skein_create(
    system: &mut [u64],
    entries: &mut [u64],
    rulesets: &[u64],
    layers: &[u64],
    pool: &[u64],
    threads: &[u64],
    names: &mut [u8],
    t: u64,
    d: u64,
    k: u64,
    name: &[u8],
    log: &mut [u8],
    used: &mut u64,
    report: &mut [u64],
) -> u64
    ensures answer { Tells result (with_names (tables system.new entries.new rulesets.now layers.now pool.now threads.now) names.new) report.old report.new (logged_outcome (with_names (tables system.old entries.old rulesets.now layers.now pool.now threads.now) names.old) (log_of log.old used.old) t (create k d name.now)) }
    ensures log { log_of log.new used.new ≡ logged_log (with_names (tables system.old entries.old rulesets.now layers.now pool.now threads.now) names.old) (log_of log.old used.old) t (create k d name.now) }
{
    let reply = syscalls_log_tree::create(
        system, entries, rulesets, layers, pool, threads, names, t, d, k, name, log, used,
    );
    report_denial(report, reply);
    number(reply)
}

#[unsafe(no_mangle)]
pub extern "C" fn skein_remove(
    system: &[u64],
    entries: &mut [u64],
    rulesets: &[u64],
    layers: &[u64],
    pool: &[u64],
    threads: &[u64],
    names: &mut [u8],
    t: u64,
    e: u64,
    log: &mut [u8],
    used: &mut u64,
    report: &mut [u64],
) -> u64
    ensures answer { Tells result (with_names (tables system.now entries.new rulesets.now layers.now pool.now threads.now) names.new) report.old report.new (logged_outcome (with_names (tables system.now entries.old rulesets.now layers.now pool.now threads.now) names.old) (log_of log.old used.old) t (remove e)) }
    ensures log { log_of log.new used.new ≡ logged_log (with_names (tables system.now entries.old rulesets.now layers.now pool.now threads.now) names.old) (log_of log.old used.old) t (remove e) }
{
    let reply = syscalls_log_tree::remove(
        system, entries, rulesets, layers, pool, threads, names, t, e, log, used,
    );
    report_denial(report, reply);
    number(reply)
}

#[unsafe(no_mangle)]
pub extern "C" fn skein_link(
    system: &[u64],
    entries: &mut [u64],
    rulesets: &[u64],
    layers: &[u64],
    pool: &[u64],
    threads: &[u64],
    names: &mut [u8],
    t: u64,
    s: u64,
    d: u64,
    name: &[u8],
    log: &mut [u8],
    used: &mut u64,
    report: &mut [u64],
) -> u64
    ensures answer { Tells result (with_names (tables system.now entries.new rulesets.now layers.now pool.now threads.now) names.new) report.old report.new (logged_outcome (with_names (tables system.now entries.old rulesets.now layers.now pool.now threads.now) names.old) (log_of log.old used.old) t (link s d name.now)) }
    ensures log { log_of log.new used.new ≡ logged_log (with_names (tables system.now entries.old rulesets.now layers.now pool.now threads.now) names.old) (log_of log.old used.old) t (link s d name.now) }
{
    let reply = syscalls_log_link::link(
        system, entries, rulesets, layers, pool, threads, names, t, s, d, name, log, used,
    );
    report_denial(report, reply);
    number(reply)
}

#[unsafe(no_mangle)]
pub extern "C" fn skein_rename(
    system: &[u64],
    entries: &mut [u64],
    rulesets: &[u64],
    layers: &[u64],
    pool: &[u64],
    threads: &[u64],
    names: &mut [u8],
    t: u64,
    s: u64,
    d: u64,
    name: &[u8],
    log: &mut [u8],
    used: &mut u64,
    report: &mut [u64],
) -> u64
    ensures answer { Tells result (with_names (tables system.now entries.new rulesets.now layers.now pool.now threads.now) names.new) report.old report.new (logged_outcome (with_names (tables system.now entries.old rulesets.now layers.now pool.now threads.now) names.old) (log_of log.old used.old) t (rename s d name.now)) }
    ensures log { log_of log.new used.new ≡ logged_log (with_names (tables system.now entries.old rulesets.now layers.now pool.now threads.now) names.old) (log_of log.old used.old) t (rename s d name.now) }
{
    let reply = syscalls_log_moves::rename(
        system, entries, rulesets, layers, pool, threads, names, t, s, d, name, log, used,
    );
    report_denial(report, reply);
    number(reply)
}

#[unsafe(no_mangle)]
pub extern "C" fn skein_exchange(
    system: &[u64],
    entries: &mut [u64],
    rulesets: &[u64],
    layers: &[u64],
    pool: &[u64],
    threads: &[u64],
    names: &mut [u8],
    t: u64,
    s: u64,
    d: u64,
    x: u64,
    log: &mut [u8],
    used: &mut u64,
    report: &mut [u64],
) -> u64
    ensures answer { Tells result (with_names (tables system.now entries.new rulesets.now layers.now pool.now threads.now) names.new) report.old report.new (logged_outcome (with_names (tables system.now entries.old rulesets.now layers.now pool.now threads.now) names.old) (log_of log.old used.old) t (exchange s d x)) }
    ensures log { log_of log.new used.new ≡ logged_log (with_names (tables system.now entries.old rulesets.now layers.now pool.now threads.now) names.old) (log_of log.old used.old) t (exchange s d x) }
{
    let reply = syscalls_log_moves::exchange(
        system, entries, rulesets, layers, pool, threads, names, t, s, d, x, log, used,
    );
    report_denial(report, reply);
    number(reply)
}

#[unsafe(no_mangle)]
pub extern "C" fn skein_replay(
    system: &mut [u64],
    entries: &mut [u64],
    rulesets: &[u64],
    layers: &[u64],
    pool: &[u64],
    threads: &[u64],
    names: &mut [u8],
    log: &[u8],
) -> u64
    ensures { Answers result (with_names (tables system.new entries.new rulesets.now layers.now pool.now threads.now) names.new) (replay_named (with_names (tables system.old entries.old rulesets.now layers.now pool.now threads.now) names.old) log.now) }
{
    number(syscalls_replay::replay(system, entries, rulesets, layers, pool, threads, names, log))
}

// `span` receives the first pool cell of the layer's rules and their number of cells.
#[unsafe(no_mangle)]
pub extern "C" fn skein_layer_rules(
    system: &[u64],
    entries: &[u64],
    rulesets: &[u64],
    layers: &[u64],
    pool: &[u64],
    threads: &[u64],
    names: &[u8],
    l: u64,
    span: &mut [u64],
) -> u64
    ensures answer { Answers result (with_names (tables system.now entries.now rulesets.now layers.now pool.now threads.now) names.now) (lift (with_names (tables system.now entries.now rulesets.now layers.now pool.now threads.now) names.now) (layer_read (with_names (tables system.now entries.now rulesets.now layers.now pool.now threads.now) names.now).core l)) }
    ensures part { span.new ≡ set (set span.old 0 (lift_count (with_names (tables system.now entries.now rulesets.now layers.now pool.now threads.now) names.now) (span_from (with_names (tables system.now entries.now rulesets.now layers.now pool.now threads.now) names.now).core l))) 1 (length (lift_part (with_names (tables system.now entries.now rulesets.now layers.now pool.now threads.now) names.now) (layer_part (with_names (tables system.now entries.now rulesets.now layers.now pool.now threads.now) names.now).core l))) }
{
    let mut code = 0;
    let rules = syscalls_domains::layer_rules(
        system, entries, rulesets, layers, pool, threads, names, l, &mut code,
    );
    let count = rules.len() as u64;
    let from = span_from(layers, pool.len(), l, code) as u64;
    report(span, from, count);
    code_of(code)
}

#[unsafe(no_mangle)]
pub extern "C" fn skein_lookup(
    system: &[u64],
    entries: &[u64],
    rulesets: &[u64],
    layers: &[u64],
    pool: &[u64],
    threads: &[u64],
    names: &[u8],
    path: &[u8],
) -> u64
    ensures { Answers result (with_names (tables system.now entries.now rulesets.now layers.now pool.now threads.now) names.now) (named_call (with_names (tables system.now entries.now rulesets.now layers.now pool.now threads.now) names.now) (path_checks path.now) (named_outcome (found entries.now names.now path.now) (with_names (tables system.now entries.now rulesets.now layers.now pool.now threads.now) names.now))) }
{
    number(syscalls::lookup(
        system, entries, rulesets, layers, pool, threads, names, path,
    ))
}

// `cells` receives where the first component at or after the place starts, and its length: 0 and 0 if there is none.
#[unsafe(no_mangle)]
pub extern "C" fn skein_component(path: &[u8], place: u64, cells: &mut [u64]) -> u64
    ensures answer { result ≡ 0 }
    ensures part { cells.new ≡ set (set cells.old 0 (shown_start path.now place)) 1 (length (component path.now place)) }
{
    let span = component_span(path, place);
    report(cells, span.start, span.length);
    0
}

// Posts a request at a slot of the queue.
#[unsafe(no_mangle)]
pub extern "C" fn skein_post(
    requests: &mut [u64],
    states: &mut [u64],
    answers: &[u64],
    cursor: &mut u64,
    slot: u64,
    thread: u64,
    entry: u64,
    rights: u64,
) -> u64
    ensures { Posts result (queue requests.new states.new answers.now cursor.new) (post (queue requests.old states.old answers.now cursor.old) slot thread entry rights) }
{
    number(queue_post::post(
        requests, states, answers, *cursor, slot, thread, entry, rights,
    ))
}

// Answers the next waiting slot of the queue: its number, or 8 if none waits.
#[unsafe(no_mangle)]
pub extern "C" fn skein_turn(
    system: &[u64],
    entries: &[u64],
    rulesets: &[u64],
    layers: &[u64],
    pool: &[u64],
    threads: &[u64],
    names: &[u8],
    requests: &[u64],
    states: &mut [u64],
    answers: &mut [u64],
    cursor: &mut u64,
) -> u64
    ensures answer { Answers result (with_names (tables system.now entries.now rulesets.now layers.now pool.now threads.now) names.now) (turn_named (with_names (tables system.now entries.now rulesets.now layers.now pool.now threads.now) names.now) (queue requests.now states.old answers.old cursor.old)) }
    ensures queue { queue requests.now states.new answers.new cursor.new ≡ (turn (answer_of (with_names (tables system.now entries.now rulesets.now layers.now pool.now threads.now) names.now)) (queue requests.now states.old answers.old cursor.old)).left }
{
    let round = queue_turn::turn(
        system, entries, rulesets, layers, pool, threads, names, requests, states, answers, *cursor,
    );
    let said = round.said;
    *cursor = round.cursor;
    number(served_reply(said))
}

// A request is 7 cells, an answer 3; `asked` has the names of link and rename requests.
#[unsafe(no_mangle)]
pub extern "C" fn skein_batch(
    system: &[u64],
    entries: &[u64],
    rulesets: &[u64],
    layers: &[u64],
    pool: &[u64],
    threads: &[u64],
    names: &[u8],
    requests: &[u64],
    asked: &[u8],
    answers: &mut [u64],
) -> u64
    ensures answer { Answers result (with_names (tables system.now entries.now rulesets.now layers.now pool.now threads.now) names.now) (batch_named (with_names (tables system.now entries.now rulesets.now layers.now pool.now threads.now) names.now) requests.now asked.now answers.old) }
    ensures answers { answers.new ≡ (batch_of (with_names (tables system.now entries.now rulesets.now layers.now pool.now threads.now) names.now) requests.now asked.now answers.old).answers }
{
    number(syscalls_batch::batch(
        system, entries, rulesets, layers, pool, threads, names, requests, asked, answers,
    ))
}

// What a name means in two policy files. `report` receives the file (0 stock, 1 site), where the ruleset's part starts and its length; with EBADMSG
// the place of the fault and 0, with E2BIG the file alone.
#[unsafe(no_mangle)]
pub extern "C" fn skein_find_policy(
    stock: &[u8],
    site: &[u8],
    name: &[u8],
    report: &mut [u64],
) -> u64
    ensures { FindsPolicy result report.old report.new stock.now site.now name.now }
{
    number(syscalls_policy::find_policy(stock, site, name, report))
}

// Applies the ruleset of a name. `report` is as for `skein_find_policy`; zeros where the tables are unsound or a call refuses.
#[unsafe(no_mangle)]
pub extern "C" fn skein_apply_policy<'a>(
    system: &[u64],
    entries: &[u64],
    rulesets: &mut [u64],
    layers: &[u64],
    pool: &[u64],
    threads: &[u64],
    names: &[u8],
    stock: &'a [u8],
    site: &'a [u8],
    name: &[u8],
    report: &mut [u64],
) -> u64
    ensures { AppliesPolicy result (with_names (tables system.now entries.now rulesets.old layers.now pool.now threads.now) names.now) (with_names (tables system.now entries.now rulesets.new layers.now pool.now threads.now) names.now) report.old report.new stock.now site.now name.now }
{
    number(syscalls_policy::apply_policy(
        system, entries, rulesets, layers, pool, threads, names, stock, site, name, report,
    ))
}

// Writes the policy file of a ruleset over the start of `out` and answers its length.
#[unsafe(no_mangle)]
pub extern "C" fn skein_write_policy(
    system: &[u64],
    entries: &[u64],
    rulesets: &[u64],
    layers: &[u64],
    pool: &[u64],
    threads: &[u64],
    names: &[u8],
    r: u64,
    name: &[u8],
    out: &mut [u8],
) -> u64
    ensures answer { Answers result (with_names (tables system.now entries.now rulesets.now layers.now pool.now threads.now) names.now) (write_named (with_names (tables system.now entries.now rulesets.now layers.now pool.now threads.now) names.now) r name.now out.old) }
    ensures output { out.new ≡ written_out (with_names (tables system.now entries.now rulesets.now layers.now pool.now threads.now) names.now) r name.now out.old }
{
    number(syscalls_write::write_policy(
        system, entries, rulesets, layers, pool, threads, names, r, name, out,
    ))
}
