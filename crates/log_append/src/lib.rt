// Fields of changes, written behind the used part of a log.
#![tactic(auto)]

ghost use Rattle.std.specs.Prelude.{◌≡◌, ◌++◌, ◌+◌, ◌≤◌, leb, length};
ghost use Rattle.policy.specs.Fields.{bytes_of, header};
ghost use Rattle.policy_write.specs.Written.{field_bytes};
ghost use Rattle.tree_log.specs.Changes.{create, remove, link, rename, exchange, field_of, max_value};
ghost use Rattle.tree_log.specs.Logged.{append};
ghost use Rattle.log_calls.specs.Logs.{log_of, Fits, full_reply};

use access::errno::{Errno, Reply};
use log_fields::{CREATE_TAG, EXCHANGE_TAG, LINK_TAG, REMOVE_TAG, RENAME_TAG};
use policy::HEADER;
use policy_bytes::{put_bytes, put_header, put_number};

// The bytes of a field without its name: the header, and the numbers of the value.
pub const CREATE_FIXED: usize = 6;

pub const REMOVE_FIXED: usize = 5;

pub const LINK_FIXED: usize = 7;

pub const RENAME_FIXED: usize = 7;

pub const EXCHANGE_FIXED: usize = 9;

// The log has room for a field of `fixed` bytes and a name of `more`. A used mark behind the end leaves none.
pub fn has_room(log: &[u8], used: u64, fixed: usize, more: usize) -> bool
    ensures { result ≡ leb (used + (fixed + more)) (length log.now) }
{
    if used as usize > log.len() {
        return false;
    }
    let left = log.len() - used as usize;
    if fixed > left {
        return false;
    }
    more <= left - fixed
}

// What a call answers whose field has no room: its own refusal, or ENOSPC.
pub fn without_room(reply: Reply) -> Reply
    ensures { result ≡ full_reply reply }
{
    if reply.is_refused() {
        return reply;
    }
    Reply::Refused(Errno::ENOSPC)
}

// A field whose value is a number of `n` bytes, then a name.
fn append_field(log: &mut [u8], used: &mut u64, tag: u8, head: u64, n: usize, name: &[u8])
    requires { (used.old + (header + (n + length name.now)) ≤ length log.old) × (n + length name.now ≤ max_value) }
    ensures { log_of log.new used.new ≡ append (log_of log.old used.old) (field_bytes tag (bytes_of n head ++ name.now)) }
{
    let at = *used as usize;
    let len = n + name.len();
    put_header(log, at, tag, len);
    put_number(log, at + HEADER, head, n);
    put_bytes(log, at + HEADER + n, name);
    *used = (at + HEADER + len) as u64;
}

pub fn append_create(log: &mut [u8], used: &mut u64, kind: u64, d: u64, name: &[u8])
    requires { Fits (log_of log.old used.old) (create kind d name.now) }
    ensures { log_of log.new used.new ≡ append (log_of log.old used.old) (field_of (create kind d name.now)) }
{
    append_field(
        log,
        used,
        CREATE_TAG,
        kind + 256 * d,
        CREATE_FIXED - HEADER,
        name,
    );
}

pub fn append_remove(log: &mut [u8], used: &mut u64, e: u64)
    requires { Fits (log_of log.old used.old) (remove e) }
    ensures { log_of log.new used.new ≡ append (log_of log.old used.old) (field_of (remove e)) }
{
    append_field(log, used, REMOVE_TAG, e, REMOVE_FIXED - HEADER, b"");
}

pub fn append_link(log: &mut [u8], used: &mut u64, s: u64, d: u64, name: &[u8])
    requires { Fits (log_of log.old used.old) (link s d name.now) }
    ensures { log_of log.new used.new ≡ append (log_of log.old used.old) (field_of (link s d name.now)) }
{
    append_field(
        log,
        used,
        LINK_TAG,
        s + 65536 * d,
        LINK_FIXED - HEADER,
        name,
    );
}

pub fn append_rename(log: &mut [u8], used: &mut u64, s: u64, d: u64, name: &[u8])
    requires { Fits (log_of log.old used.old) (rename s d name.now) }
    ensures { log_of log.new used.new ≡ append (log_of log.old used.old) (field_of (rename s d name.now)) }
{
    append_field(
        log,
        used,
        RENAME_TAG,
        s + 65536 * d,
        RENAME_FIXED - HEADER,
        name,
    );
}

pub fn append_exchange(log: &mut [u8], used: &mut u64, s: u64, d: u64, x: u64)
    requires { Fits (log_of log.old used.old) (exchange s d x) }
    ensures { log_of log.new used.new ≡ append (log_of log.old used.old) (field_of (exchange s d x)) }
{
    append_field(
        log,
        used,
        EXCHANGE_TAG,
        s + 65536 * (d + 65536 * x),
        EXCHANGE_FIXED - HEADER,
        b"",
    );
}
