// A queue of eight slots in parallel slices: a slot's request, its state and its answer. The cursor is the slot served last.
#![tactic(auto)]

ghost use Rattle.std.specs.Prelude.{◌≡◌};
ghost use Rattle.laws.specs.Tests.{all_below};
ghost use Rattle.queue.specs.Queue.{queue, slots, known_state, queue_sound, next, next_waiting, put_answer, served_reply};

use access::errno::{Errno, Reply};
use cells::{read, row_write};

pub const SLOTS: usize = 8;

// The cells of a request: thread, entry, rights.
pub const REQUEST_WIDTH: usize = 3;

// The cells of an answer, as `Answer` has them.
pub const ANSWER_WIDTH: usize = 4;

// The cells of all requests, and of all answers.
pub const REQUESTS_CELLS: usize = REQUEST_WIDTH * SLOTS;

pub const ANSWERS_CELLS: usize = ANSWER_WIDTH * SLOTS;

// The states of a slot. 0 is empty.
pub const WAITING: u64 = 1;

pub const ANSWERED: u64 = 2;

// What the tables answer a request: error number or 0, layer as a number + 1 or 0, rights, entries read.
#[derive(Clone, Copy)]
pub struct Answer {
    pub error: u64,
    pub layer: u64,
    pub rights: u64,
    pub read: u64,
}

// What a turn says.
#[derive(Clone, Copy)]
pub enum Served {
    Slot(u64),
    Idle,
    Refused(Errno),
}

// Every state is empty, waiting or answered.
pub fn states_known(states: &[u64]) -> bool
    ensures { result ≡ all_below (known_state states.now) slots }
{
    let mut i: usize = 0;
    while i < SLOTS {
        if read(states, i) <= ANSWERED {
            i += 1;
        } else {
            return false;
        }
    }
    true
}

// The queue is as posts and turns leave it.
pub fn queue_sound(requests: &[u64], states: &[u64], answers: &[u64], cursor: u64) -> bool
    ensures { result ≡ queue_sound (queue requests.now states.now answers.now cursor) }
{
    if cursor >= SLOTS as u64 {
        return false;
    }
    if requests.len() != REQUESTS_CELLS {
        return false;
    }
    if states.len() != SLOTS {
        return false;
    }
    if answers.len() != ANSWERS_CELLS {
        return false;
    }
    states_known(states)
}

// Writes the answer of a slot.
pub fn put_answer(answers: &mut [u64], slot: usize, a: Answer)
    ensures { answers.new ≡ put_answer answers.old slot a }
{
    row_write(answers, ANSWER_WIDTH, slot, 0, a.error);
    row_write(answers, ANSWER_WIDTH, slot, 1, a.layer);
    row_write(answers, ANSWER_WIDTH, slot, 2, a.rights);
    row_write(answers, ANSWER_WIDTH, slot, 3, a.read);
}

// The slot after a slot, going round.
fn next_slot(c: u64) -> u64
    ensures { result ≡ next c }
{
    if c < 7 { c + 1 } else { 0 }
}

// The next waiting slot after the cursor, going round; 8 if none waits.
pub fn next_waiting(states: &[u64], cursor: u64) -> u64
    ensures { result ≡ next_waiting states.now cursor }
{
    let mut at = cursor;
    let mut n = SLOTS;
    while n > 0 {
        at = next_slot(at);
        if read(states, at as usize) == WAITING {
            return at;
        }
        n -= 1;
    }
    SLOTS as u64
}

// The reply that stands for what a turn says: the slot's number, or 8 if none waits.
pub fn served_reply(said: Served) -> Reply
    ensures { result ≡ served_reply said }
{
    match said {
        Served::Slot(k) => Reply::Done(k),
        Served::Idle => Reply::Done(SLOTS as u64),
        Served::Refused(e) => Reply::Refused(e),
    }
}
