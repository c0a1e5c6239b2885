// The stages of a case, with the calls that thread 0 makes in them. The tables go by their first letters: s is system, e entries,
// r rulesets, l layers, p pool and t threads. Answers are written where they are shown.
use access::errno::Reply;
use access::rights::Rights;
use broker::entries::access;
use broker_domains::{restrict, set_no_new_privs};
use broker_moves::{link, rename};
use broker_rulesets::{add_path_rule, create_ruleset};
use broker_tree::create::create;
use fs_access::Accessed;
use std::io;
use tables::rows::{
    ENTRIES_CELLS, LAYERS_CELLS, POOL_CELLS, RULESETS_CELLS, SYSTEM_CELLS, THREADS_CELLS,
};
use tree::Replaced;

pub type System = [u64; SYSTEM_CELLS];

pub type Entries = [u64; ENTRIES_CELLS];

pub type Rulesets = [u64; RULESETS_CELLS];

pub type Layers = [u64; LAYERS_CELLS];

pub type Pool = [u64; POOL_CELLS];

pub type Threads = [u64; THREADS_CELLS];

const REGULAR: u64 = 1;

const DIRECTORY: u64 = 2;

pub const WRITE_FILE: u64 = 2;

// The requests: an access to entry x with the rights y, and a rename and a link of entry x into directory y.
pub const ACCESS: u64 = 1;

pub const RENAME: u64 = 2;

pub const LINK: u64 = 3;

// A request, and two entries that are written after it; 0 means none.
#[derive(Clone, Copy)]
pub struct Asked {
    pub request: u64,
    pub x: u64,
    pub y: u64,
    pub then: u64,
    pub last: u64,
}

// The number of a success, or E and the number of the error, with the layer and the rights that it names.
fn show(rt: &impl Print, shown: bool, answer: Reply) -> io::Result<()> {
    if !shown {
        return Ok(());
    }
    match answer {
        Reply::Done(n) => print!(rt; " {n}"),
        Reply::Refused(e) => print!(rt; " E{}", e.0),
        Reply::Denied(e, layer, rights) => {
            print!(rt; " E{} (layer {layer}, rights {})", e.0, rights.0)
        }
    }
}

// The same of an access, with how many entries' rules were read.
fn show_access(rt: &impl Print, answer: Accessed) -> io::Result<()> {
    let reply = answer.reply;
    show(rt, true, reply)?;
    print!(rt; " read {}", answer.read)
}

// Two directories with a file each.
pub fn tree(
    rt: &impl Print,
    s: &mut System,
    e: &mut Entries,
    r: &[u64],
    l: &[u64],
    p: &[u64],
    t: &[u64],
    shown: bool,
) -> io::Result<()> {
    show(rt, shown, create(s, e, r, l, p, t, 0, 0, DIRECTORY))?;
    show(rt, shown, create(s, e, r, l, p, t, 0, 0, DIRECTORY))?;
    show(rt, shown, create(s, e, r, l, p, t, 0, 1, REGULAR))?;
    show(rt, shown, create(s, e, r, l, p, t, 0, 2, REGULAR))
}

// A rule of ruleset 0 for an entry, if it has rights.
fn rule(
    s: &System,
    e: &Entries,
    r: &mut Rulesets,
    l: &[u64],
    p: &[u64],
    t: &[u64],
    entry: u64,
    rights: u64,
) {
    if rights != 0 {
        add_path_rule(s, e, r, l, p, t, 0, entry, Rights(rights), 0);
    }
}

// Ruleset 0 with rules for the entries 1, 2 and 3, and ruleset 1 without rules, if it has an attribute.
pub fn open(
    rt: &impl Print,
    s: &System,
    e: &Entries,
    r: &mut Rulesets,
    l: &[u64],
    p: &[u64],
    t: &[u64],
    attribute: &[u8],
    first: u64,
    second: u64,
    third: u64,
    other: &[u8],
    shown: bool,
) -> io::Result<()> {
    show(rt, shown, create_ruleset(s, e, r, l, p, t, attribute, 0))?;
    rule(s, e, r, l, p, t, 1, first);
    rule(s, e, r, l, p, t, 2, second);
    rule(s, e, r, l, p, t, 3, third);
    if other.len() != 0 {
        create_ruleset(s, e, r, l, p, t, other, 0);
    }
    Ok(())
}

// Makes `n` layers, the first of ruleset 0 and the others of ruleset 1.
pub fn enter(
    rt: &impl Print,
    s: &mut System,
    e: &Entries,
    r: &Rulesets,
    l: &mut Layers,
    p: &mut Pool,
    t: &mut Threads,
    n: u64,
    shown: bool,
) -> io::Result<()> {
    set_no_new_privs(s, e, r, l, p, t, 0);
    let mut i: u64 = 0;
    while i < n {
        let ruleset = if i == 0 { 0 } else { 1 };
        show(rt, shown, restrict(s, e, r, l, p, t, 0, ruleset, 0))?;
        i += 1;
    }
    Ok(())
}

fn ask(
    rt: &impl Print,
    s: &[u64],
    e: &mut [u64],
    r: &[u64],
    l: &[u64],
    p: &[u64],
    t: &[u64],
    request: u64,
    x: u64,
    y: u64,
) -> io::Result<()> {
    match request {
        ACCESS => show_access(rt, access(s, e, r, l, p, t, 0, x, Rights(y))),
        RENAME => show(rt, true, rename(s, e, r, l, p, t, 0, x, y, Replaced::None)),
        LINK => show(rt, true, link(s, e, r, l, p, t, 0, x, y)),
        _ => Ok(()),
    }
}

pub fn requests(
    rt: &impl Print,
    system: &System,
    e: &mut Entries,
    rulesets: &Rulesets,
    layers: &Layers,
    pool: &Pool,
    threads: &Threads,
    asked: Asked,
) -> io::Result<()> {
    let s: &[u64] = system;
    let r: &[u64] = rulesets;
    let l: &[u64] = layers;
    let p: &[u64] = pool;
    let t: &[u64] = threads;
    ask(rt, s, e, r, l, p, t, asked.request, asked.x, asked.y)?;
    if asked.then != 0 {
        ask(rt, s, e, r, l, p, t, ACCESS, asked.then, WRITE_FILE)?;
    }
    if asked.last != 0 {
        ask(rt, s, e, r, l, p, t, ACCESS, asked.last, WRITE_FILE)?;
    }
    Ok(())
}
