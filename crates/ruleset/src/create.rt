// When create is refused.
ghost use Rattle.tables.specs.Tables.{tables};
ghost use Rattle.std.specs.Prelude.{◌≡◌};
ghost use Rattle.laws.specs.Refusals.{first};
ghost use Rattle.ruleset.specs.Create.{free_ruleset, create_form, create_masks, create_checks};

use crate::attribute::{FS_AT, NET_AT, SCOPE_AT, is_stray, known_size, mask};
use access::errno::Errno;
use access::limits::{MAX_ATTRIBUTE, MAX_RULESETS, MIN_ATTRIBUTE};
use access::rights::Rights;
use sound_rules::masks_known;
use tables::rows::{handles_any, level_of, ruleset_open};

// The lowest number that is not open; the number of rulesets if all are.
pub fn free_ruleset(rulesets: &[u64]) -> usize
    ensures { result ≡ free_ruleset rulesets.now }
{
    let mut r = 0;
    while r < MAX_RULESETS {
        if !ruleset_open(rulesets, r as u64) {
            return r;
        }
        r += 1;
    }
    r
}

fn create_form(system: &[u64], bytes: &[u8], flags: u64) -> u64
    ensures { result ≡ first (create_form system.now bytes.now flags) }
{
    if level_of(system) == 0 {
        return Errno::EOPNOTSUPP.0;
    }
    if flags != 0 {
        return Errno::EINVAL.0;
    }
    if bytes.len() < MIN_ATTRIBUTE {
        return Errno::EINVAL.0;
    }
    if MAX_ATTRIBUTE < bytes.len() {
        return Errno::E2BIG.0;
    }
    0
}

fn create_masks(system: &[u64], rulesets: &[u64], bytes: &[u8]) -> u64
    ensures { result ≡ first (create_masks system.now rulesets.now bytes.now) }
{
    let level = level_of(system);
    let fs = Rights(mask(bytes, FS_AT));
    let net = Rights(mask(bytes, NET_AT));
    let scope = Rights(mask(bytes, SCOPE_AT));
    if is_stray(bytes, known_size(level)) {
        return Errno::E2BIG.0;
    }
    if !masks_known(level, fs, net, scope) {
        return Errno::EINVAL.0;
    }
    if !handles_any(fs, net, scope) {
        return Errno::ENOMSG.0;
    }
    if free_ruleset(rulesets) >= MAX_RULESETS {
        return Errno::EMFILE.0;
    }
    0
}

pub fn create_checks(
    system: &[u64],
    entries: &[u64],
    rulesets: &[u64],
    layers: &[u64],
    pool: &[u64],
    threads: &[u64],
    bytes: &[u8],
    flags: u64,
) -> u64
    ensures { result ≡ first (create_checks (tables system.now entries.now rulesets.now layers.now pool.now threads.now) bytes.now flags) }
{
    let e = create_form(system, bytes, flags);
    if e != 0 {
        return e;
    }
    create_masks(system, rulesets, bytes)
}
