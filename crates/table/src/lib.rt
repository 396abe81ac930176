// The table: one struct with flat arrays for bonds, jobs, machines, pools and messages. It is passed and returned by value, and
// lent where it is looked over or changed in place. The compiler copies a parameter that is indexed, whole: a function that takes the table and writes it
// takes it into a variable first.
// What each field holds is listed at the head of specs/Views.antt. What is unused is 0 throughout.
#![tactic(auto)]

ghost use Rattle.std.specs.Prelude.{◌≡◌, ◌≤◌, ◌<◌};
ghost use Rattle.table.specs.States.{OPEN, opens, open_after};
ghost use Rattle.table.specs.Views.{idle_machine, refuse};
ghost use Rattle.table.specs.Parts.{release, opened};

use pricer::Bond;

#[derive(Clone, Copy, PartialEq, Eq, Debug)]
pub struct Job {
    pub state: u8,
    pub replica: u8,
    pub moving: u8,
    pub holder: u8,
    pub thief: u8,
    pub price: u64,
}

#[derive(Clone, Copy, PartialEq, Eq, Debug)]
pub struct Machine {
    pub alive: u8,
    pub reserved_job: u8,
    pub reserved_replica: u8,
    pub reserved_thief: u8,
    pub running_job: u8,
    pub running_replica: u8,
    pub waits: u8,
}

#[derive(Clone, Copy, PartialEq, Eq, Debug)]
pub struct Message {
    pub kind: u8,
    pub from: u8,
    pub to: u8,
    pub job: u8,
    pub replica: u8,
    pub thief: u8,
    pub price: u64,
}

#[derive(Clone, Copy)]
pub struct Table {
    pub machine_count: u8,
    pub entry_count: u8,
    pub bonds: [Bond; 64],
    pub jobs: [Job; 64],
    pub machines: [Machine; 16],
    pub told: [u8; 256],
    pub pools: [u8; 1024],
    pub in_flight: u8,
    pub messages: [Message; 128],
    pub open_jobs: u8,
}

// A number, 0 or that of the refusal, beside the table: what document 01's definitions of opening, of an event and of a step give (`open_of`, `event_of`,
// `step_of`). Functions answer a Result; `opened` and `answered` say which of these it is.
#[derive(Clone, Copy)]
pub struct Answer {
    pub number: u8,
    pub table: Table,
}

// "A refusal returns its number; table and buffers are unchanged"
pub fn refuse(number: u8, t: Table) -> Answer
    ensures { result ≡ refuse number t }
{
    Answer {
        number: number,
        table: t,
    }
}

// The states of a job, and below the kinds of a message. They are numbers and not an enum: check 9 is asked about a table of any bytes, and the bytes are
// the layout of document 01.
pub const NOT_ADMITTED: u8 = 0;

pub const OPEN: u8 = 1;

pub const PRICED: u8 = 2;

// What a job in this state adds to the number of open jobs.
#[tactic(auto, unfolding(crate::specs::States::opens))]
fn opens(state: u8) -> u8
    ensures { result ≡ opens state }
{
    u8::from(state == OPEN)
}

// "The table keeps the number of open jobs": it was n, and one job's state was `was` and is `is`.
#[tactic(auto, using(crate::proofs::States::opens_most, crate::proofs::States::opens_within), unfolding(crate::specs::States::open_after))]
pub fn open_after(n: u8, was: u8, is: u8) -> u8
    requires { (n < 255) × (was ≡ OPEN → 1 ≤ n) }
    ensures { result ≡ open_after n was is }
{
    n + opens(is) - opens(was)
}

// What stands where no job is admitted.
pub const NO_JOB: Job = Job {
    state: NOT_ADMITTED,
    replica: 0,
    moving: 0,
    holder: 0,
    thief: 0,
    price: 0,
};

// What stands past the last machine, and what is left of a dead one.
pub const NO_MACHINE: Machine = Machine {
    alive: 0,
    reserved_job: 0,
    reserved_replica: 0,
    reserved_thief: 0,
    running_job: 0,
    running_replica: 0,
    waits: 0,
};

// A machine with no copy and no wait, of which alive says whether it is.
pub fn idle_machine(alive: u8) -> Machine
    ensures { result ≡ idle_machine alive }
{
    Machine {
        alive,
        ..NO_MACHINE
    }
}

// A machine whose reserved copy is gone.
#[tactic(auto, unfolding(crate::specs::Parts::release))]
pub fn released(n: Machine) -> Machine
    ensures { result ≡ release n }
{
    Machine {
        reserved_job: 0,
        reserved_replica: 0,
        reserved_thief: 0,
        ..n
    }
}

// A job that is open, with this replica number, on the root.
#[tactic(auto, unfolding(crate::specs::Parts::opened))]
pub fn open_job(replica: u8) -> Job
    ensures { result ≡ opened replica }
{
    Job {
        state: OPEN,
        replica,
        moving: 0,
        holder: 0,
        thief: 0,
        price: 0,
    }
}

// The kinds of a message, named as in document 01.
pub const FISH: u8 = 1;

pub const REQ: u8 = 2;

pub const AUTH: u8 = 3;

pub const DENIED: u8 = 4;

pub const OBSOLETE: u8 = 5;

pub const SCHEDULE: u8 = 6;

pub const ACK: u8 = 7;

pub const NOWORK: u8 = 8;

pub const RESULT: u8 = 9;

// What an unused slot holds.
pub const NO_MESSAGE: Message = Message {
    kind: 0,
    from: 0,
    to: 0,
    job: 0,
    replica: 0,
    thief: 0,
    price: 0,
};
