// What a thief does with the answer to its FISH: SCHEDULE or NOWORK. Each function equals the definition of its change in specs/ThiefParts.antt;
// made on a table, the change is what specs/Thief.antt says (proofs/Made.antt).
#![tactic(auto)]

ghost use Rattle.std.specs.Prelude.{◌≡◌};
ghost use Rattle.handler_thief.specs.ThiefParts.{schedule_change, no_work_change};

use protocol_change::{Change, Parts};
use table::{Machine, Message};

// The copy enters the pool, waiting ends, and the root is told.
#[tactic(auto, unfolding(crate::specs::ThiefParts::schedule_change, crate::specs::ThiefParts::no_work_change, table::specs::Parts::message))]
pub fn on_schedule(p: Parts, m: Message) -> Change
    ensures { result ≡ schedule_change p m }
{
    Change {
        cell: p.cell.max(m.replica),
        sent: Some(Message {
            kind: table::ACK,
            from: m.to,
            job: m.job,
            replica: m.replica,
            ..table::NO_MESSAGE
        }),
        ..on_no_work(p)
    }
}

// Waiting ends.
#[tactic(auto, unfolding(crate::specs::ThiefParts::no_work_change, table::specs::Parts::waiting, protocol_change::specs::Change::silent))]
pub fn on_no_work(p: Parts) -> Change
    ensures { result ≡ no_work_change p }
{
    Change {
        machine: Machine {
            waits: 0,
            ..p.machine
        },
        ..protocol_change::silent(p)
    }
}
