// One layer's rules, as a part of the pool.
#![tactic(auto)]

ghost use Rattle.tables.specs.Tables.{tables};
ghost use Rattle.std.specs.Prelude.{◌≡◌};
ghost use Rattle.domain.specs.Layer.{layer_read, layer_code, layer_part};

use access::errno::Errno;
use tables::rows::layer_in_use;

fn layer_code(
    system: &[u64],
    entries: &[u64],
    rulesets: &[u64],
    layers: &[u64],
    pool: &[u64],
    threads: &[u64],
    l: u64,
) -> u64
    ensures { result ≡ layer_code (tables system.now entries.now rulesets.now layers.now pool.now threads.now) l }
{
    if !sound::is_sound(system, entries, rulesets, layers, pool, threads) {
        return Errno::EIO.0;
    }
    if !layer_in_use(layers, l) {
        return Errno::EBADF.0;
    }
    0
}

// The layer's rules; an empty part for unsound tables (EIO) and for a layer not in use (EBADF). `code` becomes the refusal's
// number, or 0: a layer in use may have no rules.
pub fn layer_rules<'a>(
    system: &[u64],
    entries: &[u64],
    rulesets: &[u64],
    layers: &[u64],
    pool: &'a [u64],
    threads: &[u64],
    l: u64,
    code: &mut u64,
) -> &'a [u64]
    ensures part { result.now ≡ layer_part (tables system.now entries.now rulesets.now layers.now pool.now threads.now) l }
    ensures answer { code.new ≡ layer_code (tables system.now entries.now rulesets.now layers.now pool.now threads.now) l }
    ensures left { tables system.now entries.now rulesets.now layers.now pool.now threads.now ≡ (layer_read (tables system.now entries.now rulesets.now layers.now pool.now threads.now) l).left }
{
    let c = layer_code(system, entries, rulesets, layers, pool, threads, l);
    *code = c;
    if c != 0 {
        return &pool[0..0];
    }
    judge::rules::layer_rules(layers, pool, l)
}
