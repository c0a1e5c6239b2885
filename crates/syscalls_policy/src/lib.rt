// The entry points of policy files: what a name means in two of them, and its ruleset applied to tables with names.
#![tactic(auto)]

ghost use Rattle.std.specs.Prelude.{◌≡◌, true};
ghost use Rattle.access.specs.Reply.{reply_to};
ghost use Rattle.tables.specs.Tables.{tables};
ghost use Rattle.policy.specs.Find.{found};
ghost use Rattle.named.specs.Named.{with_names, named_sound, named_outcome};
ghost use Rattle.named.specs.Policy.{found_number, found_place, apply_named, applied_place, placed};

use access::errno::{Errno, Reply};
use named_sound::named_sound;
use policy_find::{find, part_in};
use policy_part::apply_part;
use policy_report::{found_number, report_found, report_nothing};

// What a name means: E2BIG, EBADMSG, ENOENT. The report has the file, where the ruleset's part starts and its length; or the place of the fault.
pub fn find_policy(stock: &[u8], site: &[u8], name: &[u8], report: &mut [u64]) -> Reply
    ensures reply { result ≡ reply_to (found_number (found stock.now site.now name.now)) }
    ensures report { report.new ≡ placed report.old (found_place (found stock.now site.now name.now)) }
{
    let meant = find(stock, site, name);
    report_found(report, meant);
    Reply::to(found_number(meant))
}

// Applies what a name means to sound tables.
fn apply_meant<'a>(
    system: &[u64],
    entries: &[u64],
    rulesets: &mut [u64],
    layers: &[u64],
    pool: &[u64],
    threads: &[u64],
    names: &[u8],
    stock: &'a [u8],
    site: &'a [u8],
    name: &[u8],
    report: &mut [u64],
) -> Reply
    requires { named_sound (with_names (tables system.now entries.now rulesets.old layers.now pool.now threads.now) names.now) ≡ true }
    ensures reply { named_outcome result (with_names (tables system.now entries.now rulesets.new layers.now pool.now threads.now) names.now) ≡ apply_named (with_names (tables system.now entries.now rulesets.old layers.now pool.now threads.now) names.now) stock.now site.now name.now }
    ensures report { report.new ≡ placed report.old (applied_place (with_names (tables system.now entries.now rulesets.old layers.now pool.now threads.now) names.now) stock.now site.now name.now) }
{
    let meant = find(stock, site, name);
    let e = found_number(meant);
    if e != 0 {
        report_found(report, meant);
        return Reply::Refused(Errno(e));
    }
    let part = part_in(stock, site, meant);
    let reply = apply_part(
        system, entries, rulesets, layers, pool, threads, names, part,
    );
    if reply.is_refused() {
        report_nothing(report);
        return reply;
    }
    report_found(report, meant);
    reply
}

// Applies the ruleset of a name: EIO; E2BIG, EBADMSG, ENOENT; then what its create, a lookup or an add refuses. Answers the ruleset's number.
// The report is as for `find_policy`; zeros where a call refuses.
pub fn apply_policy<'a>(
    system: &[u64],
    entries: &[u64],
    rulesets: &mut [u64],
    layers: &[u64],
    pool: &[u64],
    threads: &[u64],
    names: &[u8],
    stock: &'a [u8],
    site: &'a [u8],
    name: &[u8],
    report: &mut [u64],
) -> Reply
    ensures reply { named_outcome result (with_names (tables system.now entries.now rulesets.new layers.now pool.now threads.now) names.now) ≡ apply_named (with_names (tables system.now entries.now rulesets.old layers.now pool.now threads.now) names.now) stock.now site.now name.now }
    ensures report { report.new ≡ placed report.old (applied_place (with_names (tables system.now entries.now rulesets.old layers.now pool.now threads.now) names.now) stock.now site.now name.now) }
{
    if !named_sound(system, entries, rulesets, layers, pool, threads, names) {
        report_nothing(report);
        return Reply::Refused(Errno::EIO);
    }
    apply_meant(
        system, entries, rulesets, layers, pool, threads, names, stock, site, name, report,
    )
}
