// The queue as records: its slots are a list of structs, and its cursor lies in a struct. Here is what is decided of them from numbers alone; `queue_slots`
// has the functions over the structs.
#![tactic(auto)]

ghost use Rattle.std.specs.Prelude.{◌≡◌, [], ◌∷◌};
ghost use Rattle.laws.specs.Refusals.{first};
ghost use Rattle.slots.specs.Slots.{states_sound, slot_checks, choice};
ghost use Rattle.slots.specs.Slots.{said as said_of};

use access::errno::Errno;
use cells::read;
use queue::{Answer, Served, WAITING, next_waiting, states_known};

// What is asked of the tables.
#[derive(Clone, Copy)]
pub struct Request {
    pub thread: u64,
    pub entry: u64,
    pub rights: u64,
}

#[derive(Clone, Copy)]
pub struct Slot {
    pub request: Request,
    pub state: u64,
    pub answer: Answer,
}

// The cursor is the slot served last.
#[derive(Clone, Copy)]
pub struct Queue {
    pub cursor: u64,
}

fn sound(states: &[u64], cursor: u64) -> bool
    ensures { result ≡ states_sound states.now cursor }
{
    if cursor >= 8 {
        return false;
    }
    if states.len() != 8 {
        return false;
    }
    states_known(states)
}

fn check(states: &[u64], cursor: u64, slot: u64) -> u64
    ensures { result ≡ first (slot_checks states.now cursor slot) }
{
    if !sound(states, cursor) {
        return Errno::EIO.0;
    }
    if slot >= 8 {
        return Errno::EINVAL.0;
    }
    if read(states, slot as usize) == WAITING {
        return Errno::EAGAIN.0;
    }
    0
}

// The first refusal of a post, from the cursor, the slot and the eight states; 0 for none.
pub fn admit(
    cursor: u64,
    slot: u64,
    a: u64,
    b: u64,
    c: u64,
    d: u64,
    e: u64,
    f: u64,
    g: u64,
    h: u64,
) -> u64
    ensures { result ≡ first (slot_checks (a ∷ b ∷ c ∷ d ∷ e ∷ f ∷ g ∷ h ∷ []) cursor slot) }
{
    let states = [a, b, c, d, e, f, g, h];
    check(&states, cursor, slot)
}

fn choose(states: &[u64], cursor: u64) -> u64
    ensures { result ≡ choice states.now cursor }
{
    if !sound(states, cursor) {
        return 9;
    }
    next_waiting(states, cursor)
}

// The slot that a turn serves, from the cursor and the eight states; 8 if none waits, 9 for EIO.
pub fn pick(cursor: u64, a: u64, b: u64, c: u64, d: u64, e: u64, f: u64, g: u64, h: u64) -> u64
    ensures { result ≡ choice (a ∷ b ∷ c ∷ d ∷ e ∷ f ∷ g ∷ h ∷ []) cursor }
{
    let states = [a, b, c, d, e, f, g, h];
    choose(&states, cursor)
}

// What a turn says of a choice.
pub fn said(k: u64) -> Served
    ensures { result ≡ said_of k }
{
    if k < 8 {
        return Served::Slot(k);
    }
    if k == 8 {
        return Served::Idle;
    }
    Served::Refused(Errno::EIO)
}
