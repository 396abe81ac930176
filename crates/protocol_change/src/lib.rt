// What an event of document 01 looks at and what it makes of it. An event of code 1 to 5 looks at one job, one machine and the cell of that job in the
// pool of that machine, and at most one message, and it changes no more than these and the messages in flight. So the handlers and these events are
// functions of parts: the parts in, a change out. Where the parts stand in the table, and making the change on it, are the matter of the
// crate `dispatcher`, which copies no table.
#![tactic(auto)]

ghost use Rattle.std.specs.Prelude.{◌≡◌};
ghost use Rattle.protocol_change.specs.Change.{silent};

use table::{Job, Machine, Message};

// A job, a machine, and the replica number of that job in the pool of that machine.
#[derive(Clone, Copy)]
pub struct Parts {
    pub job: Job,
    pub machine: Machine,
    pub cell: u8,
}

// The same after an event, and the message that it sends.
#[derive(Clone, Copy)]
pub struct Change {
    pub job: Job,
    pub machine: Machine,
    pub cell: u8,
    pub sent: Option<Message>,
}

// Nothing changes and nothing is sent.
#[tactic(auto, unfolding(crate::specs::Change::silent))]
pub fn silent(p: Parts) -> Change
    ensures { result ≡ silent p }
{
    Change {
        job: p.job,
        machine: p.machine,
        cell: p.cell,
        sent: None,
    }
}
