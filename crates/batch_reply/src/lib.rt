// The reply of a batch to a request on sound tables, by its sort.
#![tactic(auto)]

ghost use Rattle.std.specs.Prelude.{◌≡◌, true};
ghost use Rattle.fs.specs.NeedsTable.{NeedsTable};
ghost use Rattle.sound_names_chains.specs.Chains.{IndexedIf};
ghost use Rattle.named.specs.Named.{with_names, named_sound};
ghost use Rattle.tables.specs.Tables.{tables};
ghost use Rattle.named.specs.Batch.{part_name, reply_asked};
ghost use Rattle.batch_verdict.specs.Batch.{BatchReady};

use access::errno::Reply;
use access::rights::Rights;
use batch_access::{access_reply, port_reply};
use batch_exchange::exchange_reply;
use batch_link::link_reply;
use batch_rename::rename_reply;
use batch_requests::{ACCESS, LINK, PORT, RENAME, Request, request_name};
use fs::table::NEEDS_ROWS;

// The reply to a request on sound tables.
pub fn request_reply(
    system: &[u64],
    entries: &[u64],
    rulesets: &[u64],
    layers: &[u64],
    pool: &[u64],
    threads: &[u64],
    names: &[u8],
    needs: &[u32; NEEDS_ROWS],
    heads: &[u16],
    links: &[u16],
    whole: bool,
    orders: &[u16],
    rows: &mut [u16],
    marks: &mut [u8],
    top: usize,
    request: Request,
    asked: &[u8],
) -> Reply
    requires { (named_sound (with_names (tables system.now entries.now rulesets.now layers.now pool.now threads.now) names.now) ≡ true) × (NeedsTable needs.now × (IndexedIf whole entries.now names.now heads.now links.now × BatchReady entries.now layers.now pool.now threads.now orders.now top rows.old marks.old)) }
    ensures reply { result ≡ reply_asked (with_names (tables system.now entries.now rulesets.now layers.now pool.now threads.now) names.now) request.sort request.thread request.a request.b request.c (part_name asked.now request.from request.bytes) }
    ensures ready { BatchReady entries.now layers.now pool.now threads.now orders.now top rows.new marks.new }
{
    let sort = request.sort;
    let t = request.thread;
    let a = request.a;
    let b = request.b;
    if sort == ACCESS {
        return access_reply(
            system,
            entries,
            rulesets,
            layers,
            pool,
            threads,
            orders,
            rows,
            marks,
            top,
            t,
            a,
            Rights(b),
        );
    }
    if sort == PORT {
        return port_reply(
            system,
            entries,
            rulesets,
            layers,
            pool,
            threads,
            t,
            a,
            Rights(b),
        );
    }
    if sort == LINK {
        let name = request_name(asked, request.from, request.bytes);
        return link_reply(
            system, entries, rulesets, layers, pool, threads, names, needs, heads, links, whole,
            orders, rows, marks, top, t, a, b, name,
        );
    }
    if sort == RENAME {
        let name = request_name(asked, request.from, request.bytes);
        return rename_reply(
            system, entries, rulesets, layers, pool, threads, names, needs, heads, links, whole,
            orders, rows, marks, top, t, a, b, name,
        );
    }
    exchange_reply(
        system, entries, rulesets, layers, pool, threads, needs, orders, rows, marks, top, t, a, b,
        request.c,
    )
}
