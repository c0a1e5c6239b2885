// The entry point that writes the policy file of a ruleset.
#![tactic(auto)]

ghost use Rattle.tables.specs.Tables.{tables};
ghost use Rattle.std.specs.Prelude.{◌≡◌, ◌++◌, length};
ghost use Rattle.laws.specs.Refusals.{first};
ghost use Rattle.tables.specs.Layers.{ruleset_at};
ghost use Rattle.policy_write.specs.File.{policy_file, write_form, write_rules, write_room};
ghost use Rattle.policy_file.specs.Writing.{write_reply, write_left};
ghost use Rattle.named.specs.Named.{with_names, named_outcome};
ghost use Rattle.named.specs.Write.{write_named, written_out};
ghost use Rattle.syscalls_write.specs.Ready.{Ready};

use access::errno::{Errno, Reply};
use access::limits::MAX_RULES;
use judge::rules::ruleset_rules;
use named_sound::named_sound;
use policy::MAX_RULESET_NAME;
use policy_file::write_picked;
use policy_picks::{pick_all, write_rules};
use tables::rows::{level_of, ruleset_open};

// What refuses the call before the rules are read: EOPNOTSUPP, EBADF, EINVAL; 0 if nothing does.
fn write_form(system: &[u64], rulesets: &[u64], r: u64, name: &[u8]) -> u64
    ensures { result ≡ first (write_form system.now rulesets.now r name.now) }
{
    if level_of(system) == 0 {
        return Errno::EOPNOTSUPP.0;
    }
    if !ruleset_open(rulesets, r) {
        return Errno::EBADF.0;
    }
    if name.len() == 0 {
        return Errno::EINVAL.0;
    }
    if name.len() > MAX_RULESET_NAME {
        return Errno::EINVAL.0;
    }
    0
}

// Writes the file of an open ruleset: EPERM, ENOENT, ENAMETOOLONG; E2BIG, ENOSPC. Answers its length.
fn write_open(
    entries: &[u64],
    rulesets: &[u64],
    names: &[u8],
    r: u64,
    name: &[u8],
    out: &mut [u8],
) -> Reply
    requires { Ready entries.now names.now name.now (ruleset_at rulesets.now r).rules }
    ensures reply { result ≡ write_reply (write_rules entries.now names.now (ruleset_at rulesets.now r).rules ++ write_room (length (policy_file entries.now rulesets.now names.now r name.now)) (length out.old)) (policy_file entries.now rulesets.now names.now r name.now) }
    ensures output { out.new ≡ write_left (write_rules entries.now names.now (ruleset_at rulesets.now r).rules ++ write_room (length (policy_file entries.now rulesets.now names.now r name.now)) (length out.old)) (policy_file entries.now rulesets.now names.now r name.now) out.old }
{
    let rules = ruleset_rules(rulesets, r);
    let mut picks = [0u64; MAX_RULES];
    pick_all(entries, names, rules, &mut picks);
    let e = write_rules(entries, names, rules, &picks);
    if e != 0 {
        return Reply::Refused(Errno(e));
    }
    write_picked(entries, rulesets, names, r, name, rules, &picks, out)
}

// Writes the policy file of a ruleset over the start of `out`: EIO; EOPNOTSUPP, EBADF, EINVAL; EPERM, ENOENT, ENAMETOOLONG; E2BIG, ENOSPC. Answers its length.
pub fn write_policy(
    system: &[u64],
    entries: &[u64],
    rulesets: &[u64],
    layers: &[u64],
    pool: &[u64],
    threads: &[u64],
    names: &[u8],
    r: u64,
    name: &[u8],
    out: &mut [u8],
) -> Reply
    ensures reply { named_outcome result (with_names (tables system.now entries.now rulesets.now layers.now pool.now threads.now) names.now) ≡ write_named (with_names (tables system.now entries.now rulesets.now layers.now pool.now threads.now) names.now) r name.now out.old }
    ensures output { out.new ≡ written_out (with_names (tables system.now entries.now rulesets.now layers.now pool.now threads.now) names.now) r name.now out.old }
{
    if !named_sound(system, entries, rulesets, layers, pool, threads, names) {
        return Reply::Refused(Errno::EIO);
    }
    let e = write_form(system, rulesets, r, name);
    if e != 0 {
        return Reply::Refused(Errno(e));
    }
    write_open(entries, rulesets, names, r, name, out)
}
