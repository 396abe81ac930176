// Refusal 9, one element of the table at a time: bonds, jobs, machines, told flags, pool cells. Each test is handed numbers, or all limits of the table,
// and the one element, never the table. Message slots are the crate `validity_message`.
#![tactic(auto)]

ghost use Rattle.std.specs.Prelude.{◌≡◌};
ghost use Rattle.validity_element.specs.Element.{copy_ok, no_terms, empty_bond, bond_ok, empty_job, admitted_ok, place_ok, job_ok, empty_machine};
ghost use Rattle.validity_element.specs.Element.{reserved_ok, running_ok, machine_ok, told_ok, cell_ok};

use pricer::{Bond, Terms};
use table::{Job, Machine};

// What the numbers in a table keep to: machine numbers are below the machine count, job numbers below the entry count, and no replica number is above
// the largest.
#[derive(Clone, Copy)]
pub struct Limits {
    pub machines: u8,
    pub entries: u8,
    pub replicas: u8,
}

fn no_terms(x: Terms) -> bool
    ensures { result ≡ no_terms x }
{
    match x {
        Terms::Zero(y) => pricer::bits(y) == 0,
        Terms::Fixed(c, y) => false,
    }
}

fn empty_bond(x: Bond) -> bool
    ensures { result ≡ empty_bond x }
{
    (x.periods == 0) & (x.payments == 0) & no_terms(x.terms)
}

// It asks for one of the limits alone.
pub fn bond_ok(entries: u8, j: u8, x: Bond) -> bool
    ensures { result ≡ bond_ok entries j x }
{
    if j < entries {
        return pricer::in_range(x);
    }
    empty_bond(x)
}

fn empty_job(v: Job) -> bool
    ensures { result ≡ empty_job v }
{
    v == table::NO_JOB
}

fn admitted_ok(v: Job) -> bool
    ensures { result ≡ admitted_ok v }
{
    (v.state == table::OPEN) & (v.price == 0) | (v.state == table::PRICED)
}

fn empty_machine(n: Machine) -> bool
    ensures { result ≡ empty_machine n }
{
    n == table::NO_MACHINE
}

// It asks for one of the limits alone.
pub fn told_ok(machines: u8, alive: u8, m: u8, d: u8, x: u8) -> bool
    ensures { result ≡ told_ok machines alive m d x }
{
    (x == 0) | (x == 1) & (m < machines) & (d < machines) & (alive == 0)
}

impl Limits {
    // A copy: a job number and a replica number in their ranges.
    pub fn copy_ok(self, job: u8, replica: u8) -> bool
        ensures { result ≡ copy_ok self.entries self.replicas job replica }
    {
        (job < self.entries) & (1 <= replica) & (replica <= self.replicas)
    }

    fn place_ok(self, v: Job) -> bool
        ensures { result ≡ place_ok self.machines v }
    {
        (v.holder < self.machines)
            & ((v.moving == 0) & (v.thief == 0) | (v.moving == 1) & (v.thief < self.machines))
    }

    // A job that is not admitted is empty, and no other is: one test says which of the two is asked.
    pub fn job_ok(self, j: u8, v: Job) -> bool
        ensures { result ≡ job_ok self.machines self.entries self.replicas j v }
    {
        if v.state == table::NOT_ADMITTED {
            return empty_job(v);
        }
        admitted_ok(v) & self.copy_ok(j, v.replica) & self.place_ok(v)
    }

    fn reserved_ok(self, n: Machine) -> bool
        ensures { result ≡ reserved_ok self.machines self.entries self.replicas n }
    {
        (n.reserved_job == 0) & (n.reserved_replica == 0) & (n.reserved_thief == 0)
            | self.copy_ok(n.reserved_job, n.reserved_replica) & (n.reserved_thief < self.machines)
    }

    fn running_ok(self, n: Machine) -> bool
        ensures { result ≡ running_ok self.entries self.replicas n }
    {
        (n.running_job == 0) & (n.running_replica == 0)
            | self.copy_ok(n.running_job, n.running_replica)
    }

    // A machine that is not alive is empty, and no other is: one test says which of the two is asked.
    pub fn machine_ok(self, m: u8, n: Machine) -> bool
        ensures { result ≡ machine_ok self.machines self.entries self.replicas m n }
    {
        if n.alive == 0 {
            return empty_machine(n);
        }
        (m < self.machines)
            & (n.alive == 1)
            & (n.waits <= self.machines)
            & self.reserved_ok(n)
            & self.running_ok(n)
    }

    pub fn cell_ok(self, alive: u8, j: u8, x: u8) -> bool
        ensures { result ≡ cell_ok self.entries self.replicas alive j x }
    {
        (x == 0) | (alive == 1) & self.copy_ok(j, x)
    }
}
