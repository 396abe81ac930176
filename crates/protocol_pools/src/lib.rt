// A machine's pool: a copy enters, the lowest job, the reserved copy returns, the pool is cleared; an open job opened again on the root.
// Each public function equals the definition of its name in the crate `table`; `open_on_root` equals its `enter` after `with_job`, and `lowest`, which
// is lent the pools, the definition in specs/Lowest.antt.
#![tactic(auto)]

ghost use Rattle.std.specs.Prelude.{◌≡◌, ◌<◌};
ghost use Rattle.table.specs.Views.{job_at, machine_at, with_job};
ghost use Rattle.table.specs.Pools.{enter, clear_pool, returned};
ghost use Rattle.table.specs.Parts.{opened, OPEN};
ghost use Rattle.protocol_pools.specs.Lowest.{lowest_in};

use table::Table;

// "Adding a copy to a pool keeps the larger replica number."
#[tactic(auto, unfolding(table::specs::Pools::enter, table::specs::Views::parts))]
fn enter(t: Table, m: usize, j: usize, r: u8) -> Table
    requires { (m < 16) × (j < 64) }
    ensures { result ≡ enter t m j r }
{
    let mut u = t;
    let i = m * 64 + j;
    u.pools[i] = u.pools[i].max(r);
    u
}

// Job j, which is open, is so with replica number r, on the root, and enters the root's pool. There are as many open jobs as before.
pub fn open_on_root(t: Table, j: usize, r: u8) -> Table
    requires { (j < 64) × ((job_at t j).state ≡ OPEN) }
    ensures { result ≡ enter (with_job t j (opened r)) 0 j r }
{
    let mut u = t;
    u.jobs[j] = table::open_job(r);
    enter(u, 0, j, r)
}

// The lowest job of machine m's pool, where it is not empty.
pub fn lowest(pools: &[u8; 1024], m: usize) -> Option<u8>
    requires { m < 16 }
    ensures { result ≡ lowest_in pools.now m }
{
    let base = m * 64;
    for j in 0..64u8 {
        if pools[base + j as usize] != 0 {
            return Some(j);
        }
    }
    None
}

// Machine m's pool is cleared.
pub fn clear_pool(t: Table, m: usize) -> Table
    requires { m < 16 }
    ensures { result ≡ clear_pool t m }
{
    let base = m * 64;
    let mut u = t;
    for j in 0..64 {
        u.pools[base + j] = 0;
    }
    u
}

// The reserved copy of machine m returns to its pool.
#[tactic(auto, unfolding(table::specs::Pools::returned, table::specs::Views::parts))]
pub fn returned(t: Table, m: usize) -> Table
    requires { (m < 16) × ((machine_at t m).reserved_job < 64) }
    ensures { result ≡ returned t m }
{
    let machines = t.machines;
    let n = machines[m];
    let mut u = enter(t, m, n.reserved_job as usize, n.reserved_replica);
    u.machines[m] = table::released(n);
    u
}
