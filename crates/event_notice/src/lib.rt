// Event 7: a machine is told that another is dead. The four things that every machine then does, and what the root does besides.
#![tactic(auto)]

ghost use Rattle.std.specs.Prelude.{◌≡◌, ℕ, ◌<◌, ◌≤◌};
ghost use Rattle.table.specs.Views.{job_at, machine_at};
ghost use Rattle.table.specs.Needs.{Ready};
ghost use Rattle.refusal.specs.Numbers.{answer_of};
ghost use Rattle.event_notice.specs.Notice.{informed, clear_wait, return_reserved, notice_local, affected, reissue, noticed, notice_number};

use refusal::Refusal;
use table::{Job, Machine, Table};

// a is told that b is dead, and undelivered messages from b to a are dropped.
#[tactic(auto, unfolding(crate::specs::Notice::informed, table::specs::Views::parts))]
fn informed(t: Table, a: u8, b: u8) -> Table
    requires { (a < 16) × (b < 16) × (t.in_flight ≤ 128) }
    ensures { result ≡ informed t a b }
{
    let mut u = protocol_messages::drop_from(t, b, a);
    u.told[(a as usize) * 16 + (b as usize)] = 1;
    u
}

// If a waits on b, it stops waiting.
#[tactic(auto, unfolding(crate::specs::Notice::clear_wait, table::specs::Parts::waiting, table::specs::Views::parts))]
fn clear_wait(t: Table, a: u8, b: u8) -> Table
    requires { (a < 16) × (b < 16) }
    ensures { result ≡ clear_wait t a b }
{
    let mut u = t;
    let n = &mut u.machines[a as usize];
    if n.waits == b + 1 {
        n.waits = 0;
    }
    u
}

// If its reserved copy is for thief b, the copy returns to the pool.
#[tactic(auto, unfolding(crate::specs::Notice::return_reserved, table::specs::Views::parts))]
fn return_reserved(t: Table, a: u8, b: u8) -> Table
    requires { (a < 16) × ((machine_at t a).reserved_job < 64) }
    ensures { result ≡ return_reserved t a b }
{
    let i = a as usize;
    let machines = t.machines;
    let n = machines[i];
    if (n.reserved_replica != 0) & (n.reserved_thief == b) {
        return protocol_pools::returned(t, i);
    }
    t
}

// What every machine does.
#[tactic(auto, unfolding(crate::specs::Notice::informed, crate::specs::Notice::notice_local, table::specs::Messages::keep_messages, table::specs::Views::parts))]
fn notice_local(t: Table, a: u8, b: u8) -> Table
    requires a_bound { (a < 16) × (b < 16) × (t.in_flight ≤ 128) }
    requires reserved_job_bound { (machine_at t a).reserved_job < 64 }
    ensures { result ≡ notice_local t a b }
{
    let u = informed(t, a, b);
    let v = return_reserved(u, a, b);
    clear_wait(v, a, b)
}

// Whether a job is open and on b, or moving from or to b.
fn affected(v: Job, b: u8) -> bool
    ensures { result ≡ affected v b }
{
    (v.state == table::OPEN) & ((v.holder == b) | (v.moving == 1) & (v.thief == b))
}

// Each such job gets the next replica number, is on 0, and enters the root's pool.
fn reissue(t: Table, b: u8) -> Table
    requires { (j : ℕ) → j < 64 → (job_at t j).replica < 255 }
    ensures { result ≡ reissue t b }
{
    let mut u = t;
    for (j, v) in t.jobs.iter().enumerate() {
        if affected(*v, b) {
            u = protocol_pools::open_on_root(u, j, v.replica + 1);
        }
    }
    u
}

// The table after an accepted notice.
#[tactic(auto, unfolding(crate::specs::Notice::noticed), using(crate::proofs::Parts::job_notice_local))]
pub fn noticed(t: Table, a: u8, b: u8) -> Table
    requires ready { Ready t }
    requires a_bound { (a < t.machine_count) × (b < t.machine_count) }
    ensures { result ≡ noticed t a b }
{
    let u = notice_local(t, a, b);
    if a == 0 {
        return reissue(u, b);
    }
    u
}

// Whether it is refused, for machine a, which is n, and machine b, which is d, and whether a was told that b is dead.
#[tactic(auto, unfolding(crate::specs::Notice::notice_number))]
pub fn notice_number(n: Machine, d: Machine, told: u8) -> Result<(), Refusal>
    ensures { answer_of result ≡ notice_number n d told }
{
    if n.alive != 1 {
        return Err(Refusal::DeadMachine);
    }
    if d.alive == 1 {
        return Err(Refusal::StillAlive);
    }
    if told != 0 {
        return Err(Refusal::AlreadyTold);
    }
    Ok(())
}
