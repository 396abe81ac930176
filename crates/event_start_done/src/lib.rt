// Events 4 and 5 by the parts of a table that they look at: Start and Done. An event is whether it is refused, by the chain of its refusals in
// document 01's order, and the change that it makes where it is not.
#![tactic(auto)]

ghost use Rattle.std.specs.Prelude.{◌≡◌};
ghost use Rattle.refusal.specs.Numbers.{answer_of};
ghost use Rattle.event_start_done.specs.StartDone.{start_number, done_number};
ghost use Rattle.event_start_done.specs.StartDoneParts.{start_change, done_change};

use protocol_change::{Change, Parts};
use refusal::Refusal;
use table::{Machine, Message};

// Event 4: whether it is refused, for machine n and the replica number of the job in its pool.
#[tactic(auto, unfolding(crate::specs::StartDone::start_number))]
pub fn start_number(n: Machine, cell: u8) -> Result<(), Refusal>
    ensures { answer_of result ≡ start_number n cell }
{
    if n.alive != 1 {
        return Err(Refusal::DeadMachine);
    }
    if n.running_replica != 0 {
        return Err(Refusal::AlreadyRunning);
    }
    if cell == 0 {
        return Err(Refusal::NotInPool);
    }
    Ok(())
}

// The machine moves job b from its pool to running.
#[tactic(auto, unfolding(crate::specs::StartDoneParts::start_change, table::specs::Parts::running, protocol_change::specs::Change::silent))]
pub fn started(p: Parts, b: u8) -> Change
    ensures { result ≡ start_change p b }
{
    Change {
        machine: Machine {
            running_job: b,
            running_replica: p.cell,
            ..p.machine
        },
        cell: 0,
        ..protocol_change::silent(p)
    }
}

// Event 5: whether it is refused, for machine n and the number of messages in flight.
#[tactic(auto, unfolding(crate::specs::StartDone::done_number))]
pub fn done_number(n: Machine, used: u8) -> Result<(), Refusal>
    ensures { answer_of result ≡ done_number n used }
{
    if n.alive != 1 {
        return Err(Refusal::DeadMachine);
    }
    if n.running_replica == 0 {
        return Err(Refusal::NothingRunning);
    }
    if 128 <= used {
        return Err(Refusal::FullFlight);
    }
    Ok(())
}

// The running copy of machine a goes and RESULT with its price is sent to the root.
#[tactic(auto, unfolding(crate::specs::StartDoneParts::done_change, table::specs::Parts::pieces, table::specs::Parts::result, protocol_change::specs::Change::silent))]
pub fn finished(p: Parts, a: u8, bits: u64) -> Change
    ensures { result ≡ done_change p a bits }
{
    Change {
        machine: Machine {
            running_job: 0,
            running_replica: 0,
            ..p.machine
        },
        sent: Some(Message {
            kind: table::RESULT,
            from: a,
            job: p.machine.running_job,
            replica: p.machine.running_replica,
            price: bits,
            ..table::NO_MESSAGE
        }),
        ..protocol_change::silent(p)
    }
}
