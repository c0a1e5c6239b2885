// Posts: their refusals, and what they write.
#![tactic(auto)]

ghost use Rattle.std.specs.Prelude.{◌≡◌};
ghost use Rattle.laws.specs.Refusals.{first};
ghost use Rattle.queue.specs.Queue.{queue, post_checks, put_request, posted};
ghost use Rattle.queue.specs.Queue.{post as post_of};

use access::errno::{Errno, Reply};
use cells::{read, row_write, write};
use queue::{REQUEST_WIDTH, SLOTS, WAITING, queue_sound};

fn post_checks(requests: &[u64], states: &[u64], answers: &[u64], cursor: u64, slot: u64) -> u64
    ensures { result ≡ first (post_checks (queue requests.now states.now answers.now cursor) slot) }
{
    if !queue_sound(requests, states, answers, cursor) {
        return Errno::EIO.0;
    }
    if slot >= SLOTS as u64 {
        return Errno::EINVAL.0;
    }
    if read(states, slot as usize) == WAITING {
        return Errno::EAGAIN.0;
    }
    0
}

fn put_request(requests: &mut [u64], slot: usize, thread: u64, entry: u64, rights: u64)
    ensures { requests.new ≡ put_request requests.old slot thread entry rights }
{
    row_write(requests, REQUEST_WIDTH, slot, 0, thread);
    row_write(requests, REQUEST_WIDTH, slot, 1, entry);
    row_write(requests, REQUEST_WIDTH, slot, 2, rights);
}

// Posts a request at a slot.
pub fn post(
    requests: &mut [u64],
    states: &mut [u64],
    answers: &[u64],
    cursor: u64,
    slot: u64,
    thread: u64,
    entry: u64,
    rights: u64,
) -> Reply
    ensures { posted result (queue requests.new states.new answers.now cursor) ≡ post_of (queue requests.old states.old answers.now cursor) slot thread entry rights }
{
    let c = post_checks(requests, states, answers, cursor, slot);
    if c != 0 {
        return Reply::Refused(Errno(c));
    }
    put_request(requests, slot as usize, thread, entry, rights);
    write(states, slot as usize, WAITING);
    Reply::Done(0)
}
