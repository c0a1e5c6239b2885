// The soundness test of the threads and their domains.
#![tactic(auto)]

ghost use Rattle.std.specs.Prelude.{◌≡◌, ◌*◌, ◌<◌, length};
ghost use Rattle.access.specs.Limits.{max_domain, max_layers, max_threads};
ghost use Rattle.tables.specs.Tables.{layer_width, thread_width};
ghost use Rattle.sound_domains.specs.Domains.{chain_ends, thread_sound, threads_sound};

use access::limits::{MAX_DOMAIN, MAX_LAYERS, MAX_THREADS};
use tables::rows::{LAYER_WIDTH, THREAD_ADMIN, THREAD_PRIVS, THREAD_WIDTH, THREAD_YOUNGEST};

// From a layer (its number + 1, or 0 for none) the parents come to none within the limit of a domain. A layer past the table has none.
fn chain_ends(layers: &[u64], y: u64) -> bool
    requires { length layers.now ≡ layer_width * max_layers }
    ensures { result ≡ chain_ends layers.now max_domain y }
{
    let mut at = y;
    for _ in 0..MAX_DOMAIN {
        if at == 0 {
            return true;
        }
        if at > MAX_LAYERS as u64 {
            return true;
        }
        at = layers[LAYER_WIDTH * (at - 1) as usize];
    }
    at == 0
}

fn thread_sound(layers: &[u64], threads: &[u64], used: u64, t: usize) -> bool
    requires { (length layers.now ≡ layer_width * max_layers) × ((length threads.now ≡ thread_width * max_threads) × (t < max_threads)) }
    ensures { result ≡ thread_sound layers.now threads.now used t }
{
    let at = THREAD_WIDTH * t;
    let state = threads[at];
    let youngest = threads[at + THREAD_YOUNGEST];
    let privs = threads[at + THREAD_PRIVS];
    let admin = threads[at + THREAD_ADMIN];
    // Cells, which may hold any number.
    if state == 0 {
        if youngest != 0 {
            return false;
        }
        if privs != 0 {
            return false;
        }
        return admin == 0;
    }
    if state != 1 {
        return false;
    }
    if youngest > used {
        return false;
    }
    if privs > 1 {
        return false;
    }
    if admin > 1 {
        return false;
    }
    chain_ends(layers, youngest)
}

// The threads are sound; `used` is the number of layer records.
pub fn threads_sound(layers: &[u64], threads: &[u64], used: u64) -> bool
    requires { (length layers.now ≡ layer_width * max_layers) × (length threads.now ≡ thread_width * max_threads) }
    ensures { result ≡ threads_sound layers.now threads.now used }
{
    (0..MAX_THREADS).all(|t| thread_sound(layers, threads, used, t))
}
