// The soundness of all seven tables.
#![tactic(auto)]

ghost use Rattle.tables.specs.Tables.{tables};
ghost use Rattle.std.specs.Prelude.{◌≡◌};
ghost use Rattle.named.specs.Named.{with_names, named_sound};

use sound::is_sound;
use sound_names::names_sound;

pub fn named_sound(
    system: &[u64],
    entries: &[u64],
    rulesets: &[u64],
    layers: &[u64],
    pool: &[u64],
    threads: &[u64],
    names: &[u8],
) -> bool
    ensures { result ≡ named_sound (with_names (tables system.now entries.now rulesets.now layers.now pool.now threads.now) names.now) }
{
    if !is_sound(system, entries, rulesets, layers, pool, threads) {
        return false;
    }
    names_sound(entries, names)
}
