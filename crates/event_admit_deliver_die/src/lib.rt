// Events 1, 3 and 6: Admit, Deliver, Die. Steal and Notice are crates of their own, Start and Done the crate `event_start_done`.
// An event is whether it is refused, by the chain of its refusals in document 01's order, and what it makes where it is not: a change of the table's parts.
// Deliver's change is the handler's (crate `handler`); Die changes more than parts, and takes a table that passed check 9 by value.
#![tactic(auto)]

ghost use Rattle.std.specs.Prelude.{◌≡◌, ◌<◌, ◌≤◌};
ghost use Rattle.refusal.specs.Numbers.{answer_of};
ghost use Rattle.event_admit_deliver_die.specs.AdmitDeliverDie.{admit_number, deliver_number, died, die_number};
ghost use Rattle.event_admit_deliver_die.specs.AdmitDeliverDieParts.{admit_change};

use protocol_change::{Change, Parts};
use refusal::Refusal;
use table::{Job, Machine, Table};

// Event 1: whether it is refused, for job v.
#[tactic(auto, unfolding(crate::specs::AdmitDeliverDie::admit_number))]
pub fn admit_number(v: Job) -> Result<(), Refusal>
    ensures { answer_of result ≡ admit_number v }
{
    if v.state != table::NOT_ADMITTED {
        return Err(Refusal::AlreadyAdmitted);
    }
    Ok(())
}

// The job becomes open, replica 1, on 0, and enters the root's pool.
#[tactic(auto, unfolding(crate::specs::AdmitDeliverDieParts::admit_change, protocol_change::specs::Change::silent))]
pub fn admitted(p: Parts) -> Change
    ensures { result ≡ admit_change p }
{
    Change {
        job: table::open_job(1),
        cell: p.cell.max(1),
        ..protocol_change::silent(p)
    }
}

// Event 3: whether it is refused, for the number of messages in flight and the slot of the oldest from a to b, which is that number where there is none.
#[tactic(auto, unfolding(crate::specs::AdmitDeliverDie::deliver_number))]
pub fn deliver_number(used: usize, slot: usize) -> Result<(), Refusal>
    ensures { answer_of result ≡ deliver_number used slot }
{
    if used <= slot {
        return Err(Refusal::NoneInFlight);
    }
    Ok(())
}

// Event 6: whether it is refused, for machine a, which is n.
#[tactic(auto, unfolding(crate::specs::AdmitDeliverDie::die_number))]
pub fn die_number(a: u8, n: Machine) -> Result<(), Refusal>
    ensures { answer_of result ≡ die_number a n }
{
    if a == 0 {
        return Err(Refusal::RootNeverDies);
    }
    if n.alive != 1 {
        return Err(Refusal::DeadMachine);
    }
    Ok(())
}

// Machine a's pool, reserved, running and waiting are cleared, and messages to it are dropped.
#[tactic(auto, unfolding(crate::specs::AdmitDeliverDie::died, table::specs::Views::parts), using(table::proofs::ClearPool::used_clear_pool))]
pub fn died(t: Table, a: u8) -> Table
    requires { (a < 16) × (t.in_flight ≤ 128) }
    ensures { result ≡ died t a }
{
    let mut u = protocol_pools::clear_pool(t, a as usize);
    u.machines[a as usize] = table::idle_machine(0);
    protocol_messages::drop_to(u, a)
}
