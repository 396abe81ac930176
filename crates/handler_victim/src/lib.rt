// What a victim does with a message: FISH from a thief, and the root's answers AUTH, DENIED and OBSOLETE. Each function equals the definition of its
// change in specs/VictimParts.antt; made on a table, the change is what specs/Victim.antt says (proofs/Made.antt).
#![tactic(auto)]

ghost use Rattle.std.specs.Prelude.{◌≡◌};
ghost use Rattle.table.specs.Parts.{reserves};
ghost use Rattle.handler_victim.specs.VictimParts.{
  no_work_from,
  fish_job,
  fish_change,
  let_go,
  auth_change,
  denied_change,
  obsolete_change,
};

use protocol_change::{Change, Parts};
use table::{Machine, Message};

// The NOWORK of one machine to another.
#[tactic(auto, unfolding(table::specs::Parts::message))]
fn no_work(from: u8, to: u8) -> Message
    ensures { result ≡ no_work_from from to }
{
    Message {
        kind: table::NOWORK,
        from,
        to,
        ..table::NO_MESSAGE
    }
}

// The job whose cell a FISH looks at: the lowest, 0 where there is none. A number of 64 or more is no job's.
#[tactic(auto, unfolding(crate::specs::VictimParts::fish_job))]
pub fn fish_job(low: Option<u8>) -> usize
    ensures { result ≡ fish_job low }
{
    match low {
        Some(job) if job < 64 => job as usize,
        _ => 0,
    }
}

// The lowest job of the pool is reserved for the thief, or the thief gets NOWORK.
#[tactic(auto, unfolding(crate::specs::VictimParts::fish_change, table::specs::Parts::reserve, table::specs::Parts::message, protocol_change::specs::Change::silent))]
pub fn on_fish(p: Parts, m: Message, low: Option<u8>) -> Change
    ensures { result ≡ fish_change p m low }
{
    match low {
        Some(job) if (p.machine.reserved_replica == 0) & (job < 64) => Change {
            machine: Machine {
                reserved_job: job,
                reserved_replica: p.cell,
                reserved_thief: m.from,
                ..p.machine
            },
            cell: 0,
            sent: Some(Message {
                kind: table::REQ,
                from: m.to,
                job,
                replica: p.cell,
                thief: m.from,
                ..table::NO_MESSAGE
            }),
            ..protocol_change::silent(p)
        },
        _ => Change {
            sent: Some(no_work(m.to, m.from)),
            ..protocol_change::silent(p)
        },
    }
}

// Whether the reserved copy is the one that the message names.
#[tactic(auto, unfolding(table::specs::Parts::reserves, table::specs::Parts::copy_is))]
fn reserves(n: Machine, m: Message) -> bool
    ensures { result ≡ reserves n m.job m.replica m.thief }
{
    (n.reserved_replica != 0)
        & ((n.reserved_job, n.reserved_replica, n.reserved_thief) == (m.job, m.replica, m.thief))
}

// Where the reserved copy is the one that the message names, it goes: its job's cell is then this one, and this message is sent.
#[tactic(auto, unfolding(crate::specs::VictimParts::let_go, protocol_change::specs::Change::silent))]
fn let_go(p: Parts, m: Message, cell: u8, sent: Message) -> Change
    ensures { result ≡ let_go p m cell sent }
{
    if !reserves(p.machine, m) {
        return protocol_change::silent(p);
    }
    Change {
        job: p.job,
        machine: table::released(p.machine),
        cell,
        sent: Some(sent),
    }
}

// The reserved copy goes to the thief.
#[tactic(auto, unfolding(crate::specs::VictimParts::auth_change, crate::specs::VictimParts::let_go, table::specs::Parts::message))]
pub fn on_auth(p: Parts, m: Message) -> Change
    ensures { result ≡ auth_change p m }
{
    let schedule = Message {
        kind: table::SCHEDULE,
        from: m.to,
        to: m.thief,
        job: m.job,
        replica: m.replica,
        ..table::NO_MESSAGE
    };
    let_go(p, m, p.cell, schedule)
}

// The reserved copy returns to the pool.
#[tactic(auto, unfolding(crate::specs::VictimParts::denied_change, crate::specs::VictimParts::let_go))]
pub fn on_denied(p: Parts, m: Message) -> Change
    ensures { result ≡ denied_change p m }
{
    let_go(p, m, p.cell.max(m.replica), no_work(m.to, m.thief))
}

// The reserved copy is discarded.
#[tactic(auto, unfolding(crate::specs::VictimParts::obsolete_change, crate::specs::VictimParts::let_go))]
pub fn on_obsolete(p: Parts, m: Message) -> Change
    ensures { result ≡ obsolete_change p m }
{
    let_go(p, m, p.cell, no_work(m.to, m.thief))
}
