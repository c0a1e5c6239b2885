// The requests of a batch, their names and the cells of their answers.
#![tactic(auto)]

ghost use Rattle.std.specs.Prelude.{◌≡◌, ◌+◌, ◌*◌, ◌≤◌, ◌<◌, length};
ghost use Rattle.laws.specs.Refusals.{first};
ghost use Rattle.laws.specs.Tests.{all_below};
ghost use Rattle.codes.specs.Codes.{said};
ghost use Rattle.named.specs.Batch.{request_width, asked_cell, known_sort, part_name, batch_answer_width, put_said, batch_checks};

use access::errno::{Errno, Reply};
use codes::{denied_rights, error_number, named_layer};

// The cells of a request, as `Request` has them.
pub const REQUEST_WIDTH: usize = 7;

// The cells of an answer: error number or 0, layer, rights.
pub const ANSWER_WIDTH: usize = 3;

pub const ACCESS: u64 = 1;

pub const PORT: u64 = 2;

pub const LINK: u64 = 3;

pub const RENAME: u64 = 4;

pub const EXCHANGE: u64 = 5;

// Its sort, the thread, three numbers, and where its name starts in the names and how long it is.
#[derive(Clone, Copy)]
pub struct Request {
    pub sort: u64,
    pub thread: u64,
    pub a: u64,
    pub b: u64,
    pub c: u64,
    pub from: u64,
    pub bytes: u64,
}

// Cell `k` of request `i`.
fn cell_of(requests: &[u64], i: usize, k: usize) -> u64
    requires { (request_width * i + request_width ≤ length requests.now) × (k < request_width) }
    ensures { result ≡ asked_cell requests.now i k }
{
    requests[REQUEST_WIDTH * i + k]
}

// Request `i`.
pub fn request_at(requests: &[u64], i: usize) -> Request
    requires { request_width * i + request_width ≤ length requests.now }
    ensures sort { result.sort ≡ asked_cell requests.now i 0 }
    ensures thread { result.thread ≡ asked_cell requests.now i 1 }
    ensures a { result.a ≡ asked_cell requests.now i 2 }
    ensures b { result.b ≡ asked_cell requests.now i 3 }
    ensures c { result.c ≡ asked_cell requests.now i 4 }
    ensures from { result.from ≡ asked_cell requests.now i 5 }
    ensures bytes { result.bytes ≡ asked_cell requests.now i 6 }
{
    Request {
        sort: cell_of(requests, i, 0),
        thread: cell_of(requests, i, 1),
        a: cell_of(requests, i, 2),
        b: cell_of(requests, i, 3),
        c: cell_of(requests, i, 4),
        from: cell_of(requests, i, 5),
        bytes: cell_of(requests, i, 6),
    }
}

// A part of the names; none if it does not lie in them.
pub fn request_name(names: &[u8], from: u64, bytes: u64) -> &[u8]
    ensures { result.now ≡ part_name names.now from bytes }
{
    let n = names.len() as u64;
    if n < bytes {
        return &names[0..0];
    }
    if n - bytes < from {
        return &names[0..0];
    }
    let start = from as usize;
    let end = (from + bytes) as usize;
    &names[start..end]
}

fn known_sort(sort: u64) -> bool
    ensures { result ≡ known_sort sort }
{
    if sort < ACCESS {
        return false;
    }
    sort <= EXCHANGE
}

fn sorts_known(requests: &[u64], n: usize) -> bool
    requires { request_width * n ≤ length requests.now }
    ensures { result ≡ all_below (λ i. known_sort (asked_cell requests.now i 0)) n }
{
    let mut i = 0;
    while i < n {
        if known_sort(cell_of(requests, i, 0)) {
            i += 1;
        } else {
            return false;
        }
    }
    true
}

// What a batch refuses: a list that ends within a request, a request of another sort, too little room for the answers.
pub fn batch_checks(requests: &[u64], answers: &[u64]) -> u64
    ensures { result ≡ first (batch_checks requests.now answers.now) }
{
    let n = requests.len() / REQUEST_WIDTH;
    if requests.len() != REQUEST_WIDTH * n {
        return Errno::EINVAL.0;
    }
    if !sorts_known(requests, n) {
        return Errno::EINVAL.0;
    }
    if answers.len() < ANSWER_WIDTH * n {
        return Errno::EINVAL.0;
    }
    0
}

// Writes the answer to request `i`.
pub fn put_answer(answers: &mut [u64], i: usize, reply: Reply)
    requires { batch_answer_width * i + batch_answer_width ≤ length answers.old }
    ensures { answers.new ≡ put_said answers.old i (said reply) }
{
    let at = ANSWER_WIDTH * i;
    answers[at] = error_number(reply);
    answers[at + 1] = named_layer(reply);
    answers[at + 2] = denied_rights(reply);
}
