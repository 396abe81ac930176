// Refusal 9: whether a table is in order, in two halves. The tests of one element: one function for each array, over the tests in the crates
// `validity_element` and `validity_message`. And the counts over a whole array, each kept beside it.
#![tactic(auto)]

ghost use Rattle.std.specs.Prelude.{◌≡◌, ℕ, Bool, ◌≤◌, ◌<◌, length, get_or};
ghost use Rattle.lists.specs.Scan.{all};
ghost use Rattle.table.specs.Views.{machine_at, no_machine};
ghost use Rattle.table.specs.Parts.{recount};
ghost use Rattle.validity.specs.Each.{Tells};
ghost use Rattle.validity.specs.Validity.{sizes_ok, max_replica, bonds_ok, jobs_ok, machines_ok, pool_row, pools_ok, messages_ok, root_ok, told_row};
ghost use Rattle.validity.specs.Validity.{tolds_ok, elements_ok, counts_ok, table_ok};

use table::{Machine, Table};
use validity_element::Limits;

// Whether each item passes a test, which is handed the item's index too: whether p holds at each index, where p is what the test answers. It goes to the
// end whatever it finds: a loop with one way out tests many items at a time.
fn each<T: Copy, F: Fn(u8, T) -> bool>(items: &[T], test: F) -> bool
    requires few { length items.now ≤ 256 }
    requires callable { (i : ℕ) (x : T) → i < length items.now → F.pre test i x }
    ensures { (n : ℕ) (d : T) (p : ℕ → Bool) → length items.now ≡ n → Tells (F.post test) items.now d p → result ≡ all p n }
{
    let mut ok = true;
    for (i, x) in items.iter().enumerate() {
        ok &= test(i as u8, *x);
    }
    ok
}

// The same, of items of which one that does not pass is the last to be looked at: each test is long, and made of one item at a time in any case.
fn every<T: Copy, F: Fn(u8, T) -> bool>(items: &[T], test: F) -> bool
    requires few { length items.now ≤ 256 }
    requires callable { (i : ℕ) (x : T) → i < length items.now → F.pre test i x }
    ensures { (n : ℕ) (d : T) (p : ℕ → Bool) → length items.now ≡ n → Tells (F.post test) items.now d p → result ≡ all p n }
{
    for (i, x) in items.iter().enumerate() {
        if !test(i as u8, *x) {
            return false;
        }
    }
    true
}

fn sizes_ok(t: &Table) -> bool
    ensures { result ≡ sizes_ok t.now }
{
    (2 <= t.machine_count) & (t.machine_count <= 16) & (t.entry_count <= 64) & (t.in_flight <= 128)
}

// 1 + the deaths the root was told of.
fn max_replica(t: &Table) -> u8
    ensures { result ≡ max_replica t.now }
{
    t.told[..16].iter().filter(|x| **x == 1).count() as u8 + 1
}

// The limits of a table in which b is the largest replica number.
fn limits(t: &Table, b: u8) -> Limits
    ensures machines { result.machines ≡ t.now.machine_count }
    ensures entries { result.entries ≡ t.now.entry_count }
    ensures replicas { result.replicas ≡ b }
{
    Limits {
        machines: t.machine_count,
        entries: t.entry_count,
        replicas: b,
    }
}

fn bonds_ok(t: &Table) -> bool
    ensures { result ≡ bonds_ok t.now }
{
    let entries = t.entry_count;
    every(&t.bonds, |j, x| validity_element::bond_ok(entries, j, x))
}

fn jobs_ok(t: &Table, b: u8) -> bool
    ensures { result ≡ jobs_ok t.now b }
{
    let limits = limits(t, b);
    every(&t.jobs, |j, v| limits.job_ok(j, v))
}

fn machines_ok(t: &Table, b: u8) -> bool
    ensures { result ≡ machines_ok t.now b }
{
    let limits = limits(t, b);
    every(&t.machines, |m, n| limits.machine_ok(m, n))
}

// Of each number that a byte may have, whether that machine is alive: 1 or 0, and 0 where there is none. Made once, and lent.
fn alive_of(machines: &[Machine; 16]) -> [u8; 256]
    ensures { (k : ℕ) → get_or result k 0 ≡ (get_or machines.now k no_machine).alive }
{
    let mut alive = [0; 256];
    for (i, n) in machines.iter().enumerate() {
        alive[i] = n.alive;
    }
    alive
}

// The pool of machine m.
fn pool_row(t: &Table, b: u8, m: u8) -> bool
    requires { m < 16 }
    ensures { result ≡ pool_row t.now b m }
{
    let limits = limits(t, b);
    let alive = t.machines[m as usize].alive;
    let first = m as usize * 64;
    each(
        &t.pools[first..first + 64],
        |j, x| limits.cell_ok(alive, j, x),
    )
}

fn pools_ok(t: &Table, b: u8) -> bool
    ensures { result ≡ pools_ok t.now b }
{
    every(&t.machines, |m, _| pool_row(t, b, m))
}

fn messages_ok(t: &Table, b: u8, alive: &[u8; 256]) -> bool
    requires { (k : ℕ) → get_or alive.now k 0 ≡ (machine_at t.now k).alive }
    ensures { result ≡ messages_ok t.now b }
{
    let limits = limits(t, b);
    let used = t.in_flight;
    every(
        &t.messages,
        |i, m| validity_message::slot_ok(limits, used, i, alive[m.to as usize], m),
    )
}

fn root_ok(t: &Table) -> bool
    ensures { result ≡ root_ok t.now }
{
    t.machines[0].alive == 1
}

// What machine m has been told.
fn told_row(t: &Table, alive: &[u8; 256], m: u8) -> bool
    requires is { (k : ℕ) → get_or alive.now k 0 ≡ (machine_at t.now k).alive }
    requires within { m < 16 }
    ensures { result ≡ told_row t.now m }
{
    let machines = t.machine_count;
    let first = m as usize * 16;
    each(
        &t.told[first..first + 16],
        |d, x| validity_element::told_ok(machines, alive[d as usize], m, d, x),
    )
}

fn tolds_ok(t: &Table, alive: &[u8; 256]) -> bool
    requires { (k : ℕ) → get_or alive.now k 0 ≡ (machine_at t.now k).alive }
    ensures { result ≡ tolds_ok t.now }
{
    every(&t.machines, |m, _| told_row(t, alive, m))
}

// Whether each element passes its test.
#[tactic(auto, unfolding(crate::specs::Validity::elements_ok, table::specs::Views::parts))]
fn elements_ok(t: &Table) -> bool
    ensures { result ≡ elements_ok t.now }
{
    let b = max_replica(t);
    let alive = alive_of(&t.machines);
    sizes_ok(t)
        & bonds_ok(t)
        & jobs_ok(t, b)
        & machines_ok(t, b)
        & pools_ok(t, b)
        & messages_ok(t, b, &alive)
        & root_ok(t)
        & tolds_ok(t, &alive)
}

// How many jobs are open: a full recount.
fn open_in(t: &Table) -> u8
    ensures { result ≡ recount t.now }
{
    t.jobs.iter().filter(|v| v.state == table::OPEN).count() as u8
}

// The same, of a table by value.
pub fn recount(t: Table) -> u8
    ensures { result ≡ recount t }
{
    open_in(&t)
}

// Whether each number that is kept of a whole array is that of the array.
fn counts_ok(t: &Table) -> bool
    ensures { result ≡ counts_ok t.now }
{
    t.open_jobs == open_in(t)
}

// Whether a lent table passes check 9: false for any table that refusal 9 is for.
pub fn passes(t: &Table) -> bool
    ensures { result ≡ table_ok t.now }
{
    elements_ok(t) & counts_ok(t)
}

// The same, of a table by value.
pub fn table_ok(t: Table) -> bool
    ensures { result ≡ table_ok t }
{
    passes(&t)
}
