// Rulesets opened and closed.
#![tactic(auto)]

ghost use Rattle.tables.specs.Tables.{tables};
ghost use Rattle.std.specs.Prelude.{◌≡◌};
ghost use Rattle.laws.specs.Refusals.{first};
ghost use Rattle.tables.specs.Outcome.{outcome, answer};
ghost use Rattle.ruleset.specs.Attribute.{fs_mask, net_mask, scope_mask};
ghost use Rattle.ruleset.specs.Create.{create_checks, opened, create_done, close_checks, closed_row, close_done};

use access::errno::{Errno, Reply};
use cells::{copy, row_start, row_write};
use ruleset::attribute::{FS_AT, NET_AT, SCOPE_AT, mask};
use ruleset::create::{create_checks, free_ruleset};
use tables::rows::{RULESET_FS, RULESET_NET, RULESET_SCOPE, RULESET_WIDTH, ruleset_open};

// Opens a ruleset with the masks of the attribute and no rules.
fn apply_create(rulesets: &mut [u64], r: usize, bytes: &[u8])
    ensures { rulesets.new ≡ opened rulesets.old r (fs_mask bytes.now) (net_mask bytes.now) (scope_mask bytes.now) }
{
    row_write(rulesets, RULESET_WIDTH, r, RULESET_FS, mask(bytes, FS_AT));
    row_write(rulesets, RULESET_WIDTH, r, RULESET_NET, mask(bytes, NET_AT));
    row_write(
        rulesets,
        RULESET_WIDTH,
        r,
        RULESET_SCOPE,
        mask(bytes, SCOPE_AT),
    );
}

fn close_checks(
    system: &[u64],
    entries: &[u64],
    rulesets: &[u64],
    layers: &[u64],
    pool: &[u64],
    threads: &[u64],
    r: u64,
) -> u64
    ensures { result ≡ first (close_checks (tables system.now entries.now rulesets.now layers.now pool.now threads.now) r) }
{
    if !ruleset_open(rulesets, r) {
        return Errno::EBADF.0;
    }
    0
}

// Makes the ruleset's row zero.
fn apply_close(rulesets: &mut [u64], r: u64)
    ensures { rulesets.new ≡ closed_row rulesets.old r }
{
    let zeros = [0u64; RULESET_WIDTH];
    let from = row_start(rulesets.len(), RULESET_WIDTH, r as usize);
    copy(rulesets, from, &zeros);
}

// Opens the lowest free ruleset with the masks of the attribute.
pub fn create(
    system: &[u64],
    entries: &[u64],
    rulesets: &mut [u64],
    layers: &[u64],
    pool: &[u64],
    threads: &[u64],
    bytes: &[u8],
    flags: u64,
) -> Reply
    ensures answer { outcome result (tables system.now entries.now rulesets.new layers.now pool.now threads.now) ≡ answer (tables system.now entries.now rulesets.old layers.now pool.now threads.now) (create_checks (tables system.now entries.now rulesets.old layers.now pool.now threads.now) bytes.now flags) (create_done (tables system.now entries.now rulesets.old layers.now pool.now threads.now) bytes.now) }
    ensures bytes { bytes.now ≡ bytes.now }
{
    let e = create_checks(
        system, entries, rulesets, layers, pool, threads, bytes, flags,
    );
    if e != 0 {
        return Reply::Refused(Errno(e));
    }
    let r = free_ruleset(rulesets);
    apply_create(rulesets, r, bytes);
    Reply::Done(r as u64)
}

// Closes a ruleset.
pub fn close(
    system: &[u64],
    entries: &[u64],
    rulesets: &mut [u64],
    layers: &[u64],
    pool: &[u64],
    threads: &[u64],
    r: u64,
) -> Reply
    ensures { outcome result (tables system.now entries.now rulesets.new layers.now pool.now threads.now) ≡ answer (tables system.now entries.now rulesets.old layers.now pool.now threads.now) (close_checks (tables system.now entries.now rulesets.old layers.now pool.now threads.now) r) (close_done (tables system.now entries.now rulesets.old layers.now pool.now threads.now) r) }
{
    let e = close_checks(system, entries, rulesets, layers, pool, threads, r);
    if e != 0 {
        return Reply::Refused(Errno(e));
    }
    apply_close(rulesets, r);
    Reply::Done(0)
}
