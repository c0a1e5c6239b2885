// The verdict of a domain: one walk from the youngest layer to the oldest, for any question.
#![tactic(auto)]

ghost use Rattle.std.specs.Prelude.{◌≡◌, max};
ghost use Rattle.access.specs.Limits.{max_domain};
ghost use Rattle.judge.specs.Domain.{chain};
ghost use Rattle.judge.specs.Read.{largest};
ghost use Rattle.verdict.specs.Denial.{denied_by, crossed_by, read_by, kept_at, kept_set, crossed_at, denial, thread_denial, thread_reads, refusal_of, reply_of};

use access::errno::{Errno, Reply};
use access::limits::MAX_DOMAIN;
use access::rights::Rights;
use fs::verdict::Move;
use fs_layer::layer_against;
use judge::climb::{layer_climb, layer_port_missing};
use tables::rows::{layer_parent, youngest_of};

// What is asked of a domain: rights at an entry, rights at a port, or a move.
#[derive(Clone, Copy)]
pub enum Question {
    Entry(u64, Rights),
    Port(u64, Rights),
    Move(Move),
}

// The youngest layer that denies something, with what it denies; if none does, the youngest that holds something against a move between two
// directories, with that.
#[derive(Clone, Copy)]
pub enum Denial {
    None,
    Denied(u64, Rights),
    Crossed(u64, Rights),
}

// The denial of a question, and how many entries' rules were read for it.
#[derive(Clone, Copy)]
pub struct Judged {
    pub denial: Denial,
    pub read: u64,
}

// What a layer holds against a question.
#[derive(Clone, Copy)]
struct Held {
    denied: Rights,
    crossed: Rights,
    read: u64,
}

fn layer_holds(entries: &[u64], layers: &[u64], pool: &[u64], q: Question, l: u64) -> Held
    ensures denied { result.denied.0 ≡ denied_by entries.now layers.now pool.now q l }
    ensures crossed { result.crossed.0 ≡ crossed_by entries.now layers.now pool.now q l }
    ensures read { result.read ≡ read_by entries.now layers.now pool.now q l }
{
    match q {
        Question::Entry(e, asked) => {
            let climb = layer_climb(entries, layers, pool, l, e, asked);
            let denied = climb.missing;
            Held {
                denied,
                crossed: Rights::NONE,
                read: climb.read,
            }
        }
        Question::Port(port, asked) => Held {
            denied: layer_port_missing(layers, pool, l, port, asked),
            crossed: Rights::NONE,
            read: 0,
        },
        Question::Move(m) => {
            let against = layer_against(entries, layers, pool, l, m);
            let denied = against.denied;
            let crossed = against.crossed;
            Held {
                denied,
                crossed,
                read: 0,
            }
        }
    }
}

fn larger(a: u64, b: u64) -> u64
    ensures { result ≡ max a b }
{
    if a < b { b } else { a }
}

// The layer (its number + 1, or 0 for none) and the set of the first crossing that was met.
pub fn kept_at(k: u64, at: u64, crossed: Rights) -> u64
    ensures { result ≡ kept_at k at crossed.0 }
{
    if k != 0 {
        return k;
    }
    if crossed.is_empty() {
        return 0;
    }
    at
}

pub fn kept_set(k: u64, set: u64, crossed: Rights) -> u64
    ensures { result ≡ kept_set k set crossed.0 }
{
    if k != 0 {
        return set;
    }
    crossed.0
}

pub fn crossed_at(k: u64, set: u64) -> Denial
    ensures { result ≡ crossed_at k set }
{
    if k == 0 {
        return Denial::None;
    }
    Denial::Crossed(k - 1, Rights(set))
}

// What the domain whose youngest layer is `y` (its number + 1, or 0) answers. A layer that denies something has read all entries up to the
// root, and no layer reads more.
fn domain_judged(entries: &[u64], layers: &[u64], pool: &[u64], y: u64, q: Question) -> Judged
    ensures denial { result.denial ≡ denial (denied_by entries.now layers.now pool.now q) (crossed_by entries.now layers.now pool.now q) 0 0 (chain layers.now max_domain y) }
    ensures read { result.read ≡ largest (read_by entries.now layers.now pool.now q) (chain layers.now max_domain y) }
{
    let mut k = 0;
    let mut set = 0;
    let mut read = 0;
    let mut at = y;
    let mut n = MAX_DOMAIN;
    while n > 0 {
        if at == 0 {
            return Judged {
                denial: crossed_at(k, set),
                read,
            };
        }
        let held = layer_holds(entries, layers, pool, q, at - 1);
        read = larger(read, held.read);
        let denied = held.denied;
        if !denied.is_empty() {
            return Judged {
                denial: Denial::Denied(at - 1, denied),
                read,
            };
        }
        let crossed = held.crossed;
        set = kept_set(k, set, crossed);
        k = kept_at(k, at, crossed);
        at = layer_parent(layers, at - 1);
        n -= 1;
    }
    Judged {
        denial: crossed_at(k, set),
        read,
    }
}

// What the domain of a thread answers to rights at an entry. Without a layer nothing is asked.
pub fn thread_judged(
    entries: &[u64],
    layers: &[u64],
    pool: &[u64],
    threads: &[u64],
    t: u64,
    e: u64,
    asked: Rights,
) -> Judged
    ensures denial { result.denial ≡ thread_denial entries.now layers.now pool.now threads.now t (Question.Entry e asked) }
    ensures read { result.read ≡ thread_reads entries.now layers.now pool.now threads.now t (Question.Entry e asked) }
{
    let y = youngest_of(threads, t);
    if y == 0 {
        return Judged {
            denial: Denial::None,
            read: 0,
        };
    }
    domain_judged(entries, layers, pool, y, Question::Entry(e, asked))
}

// The denial alone, of any question. Without a layer nothing is asked.
pub fn thread_denial(
    entries: &[u64],
    layers: &[u64],
    pool: &[u64],
    threads: &[u64],
    t: u64,
    q: Question,
) -> Denial
    ensures { result ≡ thread_denial entries.now layers.now pool.now threads.now t q }
{
    let y = youngest_of(threads, t);
    if y == 0 {
        return Denial::None;
    }
    domain_judged(entries, layers, pool, y, q).denial
}

// The same of a move. A question is made of it only where there is a layer to ask.
pub fn move_denial(
    entries: &[u64],
    layers: &[u64],
    pool: &[u64],
    threads: &[u64],
    t: u64,
    m: Move,
) -> Denial
    ensures { result ≡ thread_denial entries.now layers.now pool.now threads.now t (Question.Move m) }
{
    let y = youngest_of(threads, t);
    if y == 0 {
        return Denial::None;
    }
    domain_judged(entries, layers, pool, y, Question::Move(m)).denial
}

impl Denial {
    // The error number, 0 for none.
    pub fn refusal(self) -> u64
        ensures { result ≡ refusal_of self }
    {
        match self {
            Denial::None => 0,
            Denial::Denied(_, _) => Errno::EACCES.0,
            Denial::Crossed(_, _) => Errno::EXDEV.0,
        }
    }

    // The reply, which names the layer.
    pub fn reply(self) -> Reply
        ensures { result ≡ reply_of self }
    {
        match self {
            Denial::None => Reply::Done(0),
            Denial::Denied(l, set) => Reply::Denied(Errno::EACCES, l, set),
            Denial::Crossed(l, set) => Reply::Denied(Errno::EXDEV, l, set),
        }
    }
}
