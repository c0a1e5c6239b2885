// How numbers stand for what the calls answer.
#![tactic(auto)]

ghost use Rattle.std.specs.Prelude.{◌≡◌, set};
ghost use Rattle.codes.specs.Codes.{code_of, number, layer_cell, said, reported, reported_access};

use access::errno::Reply;
use access::limits::MAX_LAYERS;
use cells::write;

// An error number as C reads it in a signed number; no error is 0.
pub fn code_of(e: u64) -> u64
    ensures { result ≡ code_of e }
{
    if e == 0 {
        return 0;
    }
    18446744073709551615 - (e - 1)
}

// A success is its own number.
pub fn number(reply: Reply) -> u64
    ensures { result ≡ number reply }
{
    match reply {
        Reply::Done(n) => n,
        Reply::Refused(e) => code_of(e.0),
        Reply::Denied(e, _, _) => code_of(e.0),
    }
}

fn layer_cell(l: u64) -> u64
    ensures { result ≡ layer_cell l }
{
    if l < MAX_LAYERS as u64 {
        return l + 1;
    }
    0
}

// The error number of a reply, 0 for none.
pub fn error_number(reply: Reply) -> u64
    ensures { result ≡ (said reply).error }
{
    match reply {
        Reply::Done(_) => 0,
        Reply::Refused(e) => e.0,
        Reply::Denied(e, _, _) => e.0,
    }
}

// The layer that a reply names, as the tables have it: its number + 1, or 0 for none.
pub fn named_layer(reply: Reply) -> u64
    ensures { result ≡ (said reply).layer }
{
    match reply {
        Reply::Done(_) => 0,
        Reply::Refused(_) => 0,
        Reply::Denied(_, l, _) => layer_cell(l),
    }
}

// The rights that a reply says are denied.
pub fn denied_rights(reply: Reply) -> u64
    ensures { result ≡ (said reply).rights }
{
    match reply {
        Reply::Done(_) => 0,
        Reply::Refused(_) => 0,
        Reply::Denied(_, _, rights) => rights.0,
    }
}

// A report of two cells; of a shorter one the cells that there are.
pub fn report(cells: &mut [u64], a: u64, b: u64)
    ensures { cells.new ≡ set (set cells.old 0 a) 1 b }
{
    write(cells, 0, a);
    write(cells, 1, b);
}

// The report of a call with a verdict: the layer and the rights.
pub fn report_denial(cells: &mut [u64], reply: Reply)
    ensures { cells.new ≡ reported cells.old reply }
{
    report(cells, named_layer(reply), denied_rights(reply));
}

// The report of an access: also how many entries' rules were read.
pub fn report_access(cells: &mut [u64], reply: Reply, read: u64)
    ensures { cells.new ≡ reported_access cells.old reply read }
{
    report_denial(cells, reply);
    write(cells, 2, read);
}
