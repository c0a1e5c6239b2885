// The worked cases of document 01, as requests W2, W3, W5 and W8 amend them, each from fresh tables. The file `stdout` has the answers, written from these.
#![tactic(auto)]

mod play;
mod stages;

use play::{LAYERS, RULESET, Setup, TREE, case};
use stages::{ACCESS, Asked, LINK, RENAME, WRITE_FILE};
use std::io;

// The rights of entry 1 in the policies A, B and C.
const A: u64 = 4;

const B: u64 = 8452;

const C: u64 = 8484;

const EXECUTE: u64 = 1;

const READ_FILE: u64 = 4;

// A request in a layer that handles 8486, and the entries that are written after it.
fn policy(
    rt: &impl Print,
    name: &str,
    first: u64,
    third: u64,
    request: u64,
    x: u64,
    y: u64,
    then: u64,
    last: u64,
) -> io::Result<()> {
    case(
        rt,
        name,
        b"\x26\x21\0\0\0\0\0\0",
        b"",
        Setup {
            level: 6,
            first: first,
            second: 8486,
            third: third,
            layers: 1,
            shown: 0,
        },
        Asked {
            request: request,
            x: x,
            y: y,
            then: then,
            last: last,
        },
    )
}

fn accesses(rt: &impl Print) -> io::Result<()> {
    policy(rt, "A, read 3", A, 0, ACCESS, 3, READ_FILE, 0, 0)?;
    policy(rt, "A, write 3", A, 0, ACCESS, 3, WRITE_FILE, 0, 0)?;
    policy(rt, "A, write 4", A, 0, ACCESS, 4, WRITE_FILE, 0, 0)?;
    policy(rt, "A, execute 3", A, 0, ACCESS, 3, EXECUTE, 0, 0)
}

fn moves(rt: &impl Print) -> io::Result<()> {
    policy(rt, "A, rename 4 to 1", A, 0, RENAME, 4, 1, 0, 0)?;
    policy(
        rt,
        "B, rename 4 to 1, after it write 4",
        B,
        0,
        RENAME,
        4,
        1,
        4,
        0,
    )?;
    policy(rt, "B, rename 3 to 2", B, 0, RENAME, 3, 2, 0, 0)?;
    policy(rt, "C, rename 3 to 2", C, 0, RENAME, 3, 2, 0, 0)?;
    policy(
        rt,
        "C with a rule giving 3 the mask 2, rename 3 to 2",
        C,
        2,
        RENAME,
        3,
        2,
        0,
        0,
    )?;
    policy(
        rt,
        "B, link 4 to 1, then write 5, write 4",
        B,
        0,
        LINK,
        4,
        1,
        5,
        4,
    )
}

// B, then a second layer without rules.
fn second(
    rt: &impl Print,
    name: &str,
    attribute: &[u8],
    request: u64,
    x: u64,
    y: u64,
    then: u64,
) -> io::Result<()> {
    case(
        rt,
        name,
        b"\x26\x21\0\0\0\0\0\0",
        attribute,
        Setup {
            level: 6,
            first: B,
            second: 8486,
            third: 0,
            layers: 2,
            shown: 0,
        },
        Asked {
            request: request,
            x: x,
            y: y,
            then: then,
            last: 0,
        },
    )
}

// The second layer handles 2.
fn write_file_layers(rt: &impl Print, attribute: &[u8]) -> io::Result<()> {
    second(
        rt,
        "B then a layer handling 2 with no rules, read 4, write 4",
        attribute,
        ACCESS,
        4,
        READ_FILE,
        4,
    )?;
    second(
        rt,
        "B then a layer handling 2 with no rules, rename 4 to 1",
        attribute,
        RENAME,
        4,
        1,
        0,
    )?;
    second(
        rt,
        "B then a layer handling 2 with no rules, rename 4 within 2",
        attribute,
        RENAME,
        4,
        2,
        0,
    )
}

fn second_layers(rt: &impl Print) -> io::Result<()> {
    write_file_layers(rt, b"\x02\0\0\0\0\0\0\0")?;
    second(
        rt,
        "B then a layer handling BIND_TCP only, rename 4 to 1",
        b"\0\0\0\0\0\0\0\0\x01\0\0\0\0\0\0\0",
        RENAME,
        4,
        1,
        0,
    )
}

// A case without rules and requests.
fn bare(
    rt: &impl Print,
    name: &str,
    level: u64,
    attribute: &[u8],
    other: &[u8],
    layers: u64,
    shown: u64,
) -> io::Result<()> {
    case(
        rt,
        name,
        attribute,
        other,
        Setup {
            level: level,
            first: 0,
            second: 0,
            third: 0,
            layers: layers,
            shown: shown,
        },
        Asked {
            request: 0,
            x: 0,
            y: 0,
            then: 0,
            last: 0,
        },
    )
}

fn attribute(rt: &impl Print, name: &str, level: u64, bytes: &[u8]) -> io::Result<()> {
    bare(rt, name, level, bytes, b"", 0, RULESET)
}

fn attributes(rt: &impl Print) -> io::Result<()> {
    let mut long = [0u8; 4097];
    long[0] = 1;
    attribute(rt, "attribute of 7 bytes", 6, b"\x01\0\0\0\0\0\0")?;
    attribute(rt, "attribute of 4,097 bytes", 6, &long)?;
    attribute(rt, "attribute of 8 zeros", 6, b"\0\0\0\0\0\0\0\0")?;
    attribute(rt, "level 1 with bit 13", 1, b"\0\x20\0\0\0\0\0\0")?;
    attribute(
        rt,
        "level 3, 16 bytes, byte 8 nonzero",
        3,
        b"\x01\0\0\0\0\0\0\0\x01\0\0\0\0\0\0\0",
    )
}

fn main(rt: HostRuntime) -> io::Result<()> {
    bare(
        &rt,
        "the tree, made by calls",
        6,
        b"\x01\0\0\0\0\0\0\0",
        b"",
        0,
        TREE,
    )?;
    accesses(&rt)?;
    moves(&rt)?;
    second_layers(&rt)?;
    attributes(&rt)?;
    bare(
        &rt,
        "64 layers, then a 65th",
        6,
        b"\x01\0\0\0\0\0\0\0",
        b"\x01\0\0\0\0\0\0\0",
        65,
        LAYERS,
    )
}
