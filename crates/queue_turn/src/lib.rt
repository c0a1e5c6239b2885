// A turn of the queue: the next waiting slot is answered from the tables.
#![tactic(auto)]

ghost use Rattle.tables.specs.Tables.{tables};
ghost use Rattle.std.specs.Prelude.{◌≡◌};
ghost use Rattle.queue.specs.Queue.{queue, turned, served_reply};
ghost use Rattle.queue.specs.Queue.{serve as serve_of, turn as turn_of};
ghost use Rattle.named.specs.Named.{with_names, named_outcome};
ghost use Rattle.named.specs.Queue.{answer_of, turn_named};

use access::errno::Errno;
use cells::{row_read, write};
use queue::{ANSWERED, REQUEST_WIDTH, SLOTS, Served, next_waiting, put_answer, queue_sound};
use queue_answer::answer;

// What a turn says, and the cursor after it.
#[derive(Clone, Copy)]
pub struct Round {
    pub said: Served,
    pub cursor: u64,
}

// Answers the request of a slot.
fn serve(
    system: &[u64],
    entries: &[u64],
    rulesets: &[u64],
    layers: &[u64],
    pool: &[u64],
    threads: &[u64],
    names: &[u8],
    requests: &[u64],
    states: &mut [u64],
    answers: &mut [u64],
    slot: usize,
)
    ensures { queue requests.now states.new answers.new slot ≡ serve_of (answer_of (with_names (tables system.now entries.now rulesets.now layers.now pool.now threads.now) names.now)) (queue requests.now states.old answers.old slot) slot }
{
    let a = answer(
        system,
        entries,
        rulesets,
        layers,
        pool,
        threads,
        names,
        row_read(requests, REQUEST_WIDTH, slot, 0),
        row_read(requests, REQUEST_WIDTH, slot, 1),
        row_read(requests, REQUEST_WIDTH, slot, 2),
    );
    write(states, slot, ANSWERED);
    put_answer(answers, slot, a);
}

// Answers the next waiting slot after the cursor.
pub fn turn(
    system: &[u64],
    entries: &[u64],
    rulesets: &[u64],
    layers: &[u64],
    pool: &[u64],
    threads: &[u64],
    names: &[u8],
    requests: &[u64],
    states: &mut [u64],
    answers: &mut [u64],
    cursor: u64,
) -> Round
    ensures queue { turned result.said (queue requests.now states.new answers.new result.cursor) ≡ turn_of (answer_of (with_names (tables system.now entries.now rulesets.now layers.now pool.now threads.now) names.now)) (queue requests.now states.old answers.old cursor) }
    ensures tables { named_outcome (served_reply result.said) (with_names (tables system.now entries.now rulesets.now layers.now pool.now threads.now) names.now) ≡ turn_named (with_names (tables system.now entries.now rulesets.now layers.now pool.now threads.now) names.now) (queue requests.now states.old answers.old cursor) }
{
    if !queue_sound(requests, states, answers, cursor) {
        return Round {
            said: Served::Refused(Errno::EIO),
            cursor,
        };
    }
    let k = next_waiting(states, cursor);
    if k >= SLOTS as u64 {
        return Round {
            said: Served::Idle,
            cursor,
        };
    }
    serve(
        system, entries, rulesets, layers, pool, threads, names, requests, states, answers,
        k as usize,
    );
    Round {
        said: Served::Slot(k),
        cursor: k,
    }
}
