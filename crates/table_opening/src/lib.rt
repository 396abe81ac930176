// Opening a book: the fresh table where it is accepted, else its refusal.
#![tactic(auto)]

ghost use Rattle.std.specs.Prelude.{◌≡◌, ◌≤◌, replicate};
ghost use Rattle.lists.specs.Scan.{up_to};
ghost use Rattle.pricer.specs.Bonds.{no_bond};
ghost use Rattle.table.specs.Views.{idle_machine, with_machine};
ghost use Rattle.table_opening.specs.Opening.{blank, bonds_of, fresh_of, open_of, opened};

use pricer::Bond;
use refusal::Refusal;
use table::{Machine, Table};

fn no_bonds() -> [Bond; 64]
    ensures { result ≡ replicate 64 no_bond }
{
    [pricer::NO_BOND; 64]
}

// The bonds of an accepted book's entries, and no bond past the last one.
fn bonds(s: &[u8]) -> [Bond; 64]
    ensures { result ≡ bonds_of s.now }
{
    let n = book::entry_count(s) as usize;
    let mut out = no_bonds();
    for i in 0..n {
        out[i] = book::term_bond_at(s, n, i);
    }
    out
}

// A table with these counts, bonds and machines, in which nothing has happened.
#[tactic(auto, unfolding(crate::specs::Opening::blank))]
fn blank(machine_count: u8, entries: u8, bonds: [Bond; 64], machines: [Machine; 16]) -> Table
    ensures { result ≡ blank machine_count entries bonds machines }
{
    Table {
        machine_count,
        entry_count: entries,
        bonds,
        jobs: [table::NO_JOB; 64],
        machines,
        told: [0; 256],
        pools: [0; 1024],
        in_flight: 0,
        messages: [table::NO_MESSAGE; 128],
        open_jobs: 0,
    }
}

// The first m machines are set alive. They are written into the table itself, by an index that runs: arrays that are only written at fixed places are
// taken apart by the optimiser, and then copied number by number in every event.
fn with_machines(t: Table, m: u8) -> Table
    requires { m ≤ 16 }
    ensures { result ≡ up_to (λ k u. with_machine u k (idle_machine 1)) m t }
{
    let mut u = t;
    for i in 0..m as usize {
        u.machines[i] = table::idle_machine(1);
    }
    u
}

// The fresh table of an accepted book.
pub fn fresh(s: &[u8]) -> Table
    ensures { result ≡ fresh_of s.now }
{
    let m = book::machine_count(s);
    let n = book::entry_count(s);
    let none = blank(m, n, bonds(s), [table::NO_MACHINE; 16]);
    with_machines(none, m)
}

// The fresh table for an accepted book, else the book's refusal.
#[tactic(auto, using(crate::proofs::Opened::book_accepted))]
pub fn open(s: &[u8]) -> Result<Table, Refusal>
    ensures { opened result ≡ open_of s.now }
{
    book::verdict(s)?;
    Ok(fresh(s))
}
