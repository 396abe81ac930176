// What the root does with a message that only the root receives: REQ, ACK and RESULT. Each function equals the definition of its change in
// specs/RootParts.antt; made on a table, the change is what specs/Root.antt says (proofs/Made.antt).
#![tactic(auto)]

ghost use Rattle.std.specs.Prelude.{◌≡◌};
ghost use Rattle.handler_root.specs.RootParts.{answer, req_change, ack_change, result_change};

use protocol_change::{Change, Parts};
use table::{Job, Message};

// The root's answer to a REQ.
#[tactic(auto, unfolding(crate::specs::RootParts::answer, table::specs::Parts::message))]
fn reply(m: Message, kind: u8) -> Message
    ensures { result ≡ answer m kind }
{
    Message {
        kind,
        from: 0,
        to: m.from,
        price: 0,
        ..m
    }
}

// The root moves a job only where the copy is current, the thief is not known as dead and the job is not moving yet.
#[tactic(auto, unfolding(crate::specs::RootParts::req_change, table::specs::Parts::moved, protocol_change::specs::Change::silent))]
pub fn on_req(p: Parts, m: Message, told: u8) -> Change
    ensures { result ≡ req_change p m told }
{
    if (p.job.state == table::PRICED) | (p.job.replica != m.replica) {
        return Change {
            sent: Some(reply(m, table::OBSOLETE)),
            ..protocol_change::silent(p)
        };
    }
    if (told != 0) | (p.job.moving != 0) {
        return Change {
            sent: Some(reply(m, table::DENIED)),
            ..protocol_change::silent(p)
        };
    }
    Change {
        job: Job {
            moving: 1,
            holder: m.from,
            thief: m.thief,
            ..p.job
        },
        sent: Some(reply(m, table::AUTH)),
        ..protocol_change::silent(p)
    }
}

// The job is on the sender, where it is open and the replica current.
#[tactic(auto, unfolding(crate::specs::RootParts::ack_change, table::specs::Parts::placed, protocol_change::specs::Change::silent))]
pub fn on_ack(p: Parts, m: Message) -> Change
    ensures { result ≡ ack_change p m }
{
    if (p.job.state != table::OPEN) | (p.job.replica != m.replica) {
        return protocol_change::silent(p);
    }
    Change {
        job: Job {
            moving: 0,
            holder: m.from,
            thief: 0,
            ..p.job
        },
        ..protocol_change::silent(p)
    }
}

// An open job becomes priced with this price.
#[tactic(auto, unfolding(crate::specs::RootParts::result_change, table::specs::Parts::priced, protocol_change::specs::Change::silent))]
pub fn on_result(p: Parts, m: Message) -> Change
    ensures { result ≡ result_change p m }
{
    if p.job.state != table::OPEN {
        return protocol_change::silent(p);
    }
    Change {
        job: Job {
            state: table::PRICED,
            price: m.price,
            ..p.job
        },
        ..protocol_change::silent(p)
    }
}
