// Posts and turns over a queue of records: the slots are a slice of structs, and the cursor lies in a struct, each behind a `&mut`. The functions are thin:
// they take the structs apart, call covered functions on numbers, and write back.
#![tactic(auto)]

ghost use Rattle.named.specs.Named.{with_names};
ghost use Rattle.tables.specs.Tables.{tables};
ghost use Rattle.std.specs.Prelude.{◌≡◌};
ghost use Rattle.access.specs.Reply.{reply_to};
ghost use Rattle.named.specs.Queue.{answer_of};
ghost use Rattle.queue.specs.Queue.{posted, turned};
ghost use Rattle.queue.specs.Queue.{post as post_of, turn as turn_of};
ghost use Rattle.slots.specs.Slots.{queue_of};
ghost use Rattle.slots.specs.Slots.{said as said_of};

use access::errno::Reply;
use queue::{ANSWERED, Answer, Served, WAITING};
use slots::{Queue, Request, Slot, admit, pick, said};

// Writes a request to a slot: the number of the first refusal, 0 for none. 5 is EIO.
fn put<'q, 's>(q: &'q Queue, slots: &'s mut [Slot], slot: u64, request: Request) -> u64
    ensures { posted (reply_to result) (queue_of slots.new q.now.cursor) ≡ post_of (queue_of slots.old q.now.cursor) slot request.thread request.entry request.rights }
{
    let cursor = q.cursor;
    if slots.len() != 8 {
        5
    } else {
        let c = admit(
            cursor,
            slot,
            slots[0].state,
            slots[1].state,
            slots[2].state,
            slots[3].state,
            slots[4].state,
            slots[5].state,
            slots[6].state,
            slots[7].state,
        );
        if c != 0 {
            c
        } else {
            let k = slot as usize;
            slots[k].request = request;
            slots[k].state = WAITING;
            0
        }
    }
}

// Posts a request at a slot.
pub fn post<'q, 's>(
    q: &'q Queue,
    slots: &'s mut [Slot],
    slot: u64,
    thread: u64,
    entry: u64,
    rights: u64,
) -> Reply
    ensures { posted result (queue_of slots.new q.now.cursor) ≡ post_of (queue_of slots.old q.now.cursor) slot thread entry rights }
{
    let request = Request {
        thread,
        entry,
        rights,
    };
    Reply::to(put(q, slots, slot, request))
}

// What the tables answer a request.
fn ask<'t>(
    system: &'t [u64],
    entries: &'t [u64],
    rulesets: &'t [u64],
    layers: &'t [u64],
    pool: &'t [u64],
    threads: &'t [u64],
    names: &'t [u8],
    request: Request,
) -> Answer
    ensures { result ≡ answer_of (with_names (tables system.now entries.now rulesets.now layers.now pool.now threads.now) names.now) request.thread request.entry request.rights }
{
    queue_answer::answer(
        system,
        entries,
        rulesets,
        layers,
        pool,
        threads,
        names,
        request.thread,
        request.entry,
        request.rights,
    )
}

// Answers the slot of the choice and moves the cursor on; it says the choice, 9 for EIO.
fn serve<'t, 'q, 's>(
    system: &'t [u64],
    entries: &'t [u64],
    rulesets: &'t [u64],
    layers: &'t [u64],
    pool: &'t [u64],
    threads: &'t [u64],
    names: &'t [u8],
    q: &'q mut Queue,
    slots: &'s mut [Slot],
) -> u64
    ensures { turned (said_of result) (queue_of slots.new q.new.cursor) ≡ turn_of (answer_of (with_names (tables system.now entries.now rulesets.now layers.now pool.now threads.now) names.now)) (queue_of slots.old q.old.cursor) }
{
    let cursor = q.cursor;
    if slots.len() != 8 {
        9
    } else {
        let k = pick(
            cursor,
            slots[0].state,
            slots[1].state,
            slots[2].state,
            slots[3].state,
            slots[4].state,
            slots[5].state,
            slots[6].state,
            slots[7].state,
        );
        if 7 < k {
            k
        } else {
            let i = k as usize;
            let answer = ask(
                system,
                entries,
                rulesets,
                layers,
                pool,
                threads,
                names,
                slots[i].request,
            );
            slots[i].state = ANSWERED;
            slots[i].answer = answer;
            q.cursor = k;
            k
        }
    }
}

// Answers the next waiting slot after the cursor, and moves the cursor on in place.
pub fn turn<'t, 'q, 's>(
    system: &'t [u64],
    entries: &'t [u64],
    rulesets: &'t [u64],
    layers: &'t [u64],
    pool: &'t [u64],
    threads: &'t [u64],
    names: &'t [u8],
    q: &'q mut Queue,
    slots: &'s mut [Slot],
) -> Served
    ensures { turned result (queue_of slots.new q.new.cursor) ≡ turn_of (answer_of (with_names (tables system.now entries.now rulesets.now layers.now pool.now threads.now) names.now)) (queue_of slots.old q.old.cursor) }
{
    said(serve(
        system, entries, rulesets, layers, pool, threads, names, q, slots,
    ))
}

// What a turn says, and what it leaves.
#[derive(Clone, Copy)]
pub struct Turned {
    pub said: Served,
    pub slots: [Slot; 8],
    pub queue: Queue,
}

// A turn of a queue that is passed and returned by value.
pub fn turn_once<'t>(
    system: &'t [u64],
    entries: &'t [u64],
    rulesets: &'t [u64],
    layers: &'t [u64],
    pool: &'t [u64],
    threads: &'t [u64],
    names: &'t [u8],
    queue: Queue,
    slots: [Slot; 8],
) -> Turned
    ensures { turned result.said (queue_of result.slots result.queue.cursor) ≡ turn_of (answer_of (with_names (tables system.now entries.now rulesets.now layers.now pool.now threads.now) names.now)) (queue_of slots queue.cursor) }
{
    let mut q = queue;
    let mut left = slots;
    let said = turn(
        system, entries, rulesets, layers, pool, threads, names, &mut q, &mut left,
    );
    Turned {
        said,
        slots: left,
        queue: q,
    }
}
