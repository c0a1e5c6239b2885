// The fields of the log: a value read as a change.
#![tactic(auto)]

ghost use Rattle.std.specs.Prelude.{◌≡◌, ◌+◌, ◌*◌, ◌<◌, length, get_or};
ghost use Rattle.tree_log.specs.Changes.{link, rename, read_create, read_remove, read_move, read_exchange, read_value, read_field};
ghost use Rattle.log_fields.specs.Seen.{change_of};

pub const CREATE_TAG: u8 = 16;

pub const REMOVE_TAG: u8 = 17;

pub const LINK_TAG: u8 = 18;

pub const RENAME_TAG: u8 = 19;

pub const EXCHANGE_TAG: u8 = 20;

// No value is longer.
pub const MAX_VALUE: usize = 64;

// A value as a change; its name, where it has one, is the value's rest: from 3 on in a create, from 4 on in a link or rename.
#[derive(Clone, Copy)]
pub enum Seen {
    Create(u8, u64),
    Remove(u64),
    Link(u64, u64),
    Rename(u64, u64),
    Exchange(u64, u64, u64),
    Unlisted,
}

// Two bytes of a value, little-endian.
fn two_at(v: &[u8], i: usize) -> u64
    requires { i + 1 < length v.now }
    ensures { result ≡ get_or v.now i 0 + 256 * get_or v.now (i + 1) 0 }
{
    let low = v[i] as u64;
    let high = v[i + 1] as u64;
    low + 256 * high
}

fn read_create(v: &[u8]) -> Seen
    ensures { change_of result v.now ≡ read_create v.now }
{
    if v.len() < 3 {
        return Seen::Unlisted;
    }
    let d = two_at(v, 1);
    Seen::Create(v[0], d)
}

fn read_remove(v: &[u8]) -> Seen
    ensures { change_of result v.now ≡ read_remove v.now }
{
    if v.len() != 2 {
        return Seen::Unlisted;
    }
    let e = two_at(v, 0);
    Seen::Remove(e)
}

fn read_link(v: &[u8]) -> Seen
    ensures { change_of result v.now ≡ read_move link v.now }
{
    if v.len() < 4 {
        return Seen::Unlisted;
    }
    let s = two_at(v, 0);
    let d = two_at(v, 2);
    Seen::Link(s, d)
}

fn read_rename(v: &[u8]) -> Seen
    ensures { change_of result v.now ≡ read_move rename v.now }
{
    if v.len() < 4 {
        return Seen::Unlisted;
    }
    let s = two_at(v, 0);
    let d = two_at(v, 2);
    Seen::Rename(s, d)
}

fn read_exchange(v: &[u8]) -> Seen
    ensures { change_of result v.now ≡ read_exchange v.now }
{
    if v.len() != 6 {
        return Seen::Unlisted;
    }
    let s = two_at(v, 0);
    let d = two_at(v, 2);
    let x = two_at(v, 4);
    Seen::Exchange(s, d, x)
}

fn read_value(tag: u8, v: &[u8]) -> Seen
    ensures { change_of result v.now ≡ read_value tag v.now }
{
    if tag == CREATE_TAG {
        return read_create(v);
    }
    if tag == REMOVE_TAG {
        return read_remove(v);
    }
    if tag == LINK_TAG {
        return read_link(v);
    }
    if tag == RENAME_TAG {
        return read_rename(v);
    }
    if tag == EXCHANGE_TAG {
        return read_exchange(v);
    }
    Seen::Unlisted
}

// The change that a field with this tag and value stands for.
pub fn read_field(tag: u8, v: &[u8]) -> Seen
    ensures { change_of result v.now ≡ read_field tag v.now }
{
    if v.len() > MAX_VALUE {
        return Seen::Unlisted;
    }
    read_value(tag, v)
}
