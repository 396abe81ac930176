// Event 8, Join: whether it is refused, by the chain of its refusals in document 02's order, and the table that it makes where it is not. It changes the
// machine count, and so takes a table by value, as Die does.
#![tactic(auto)]

ghost use Rattle.std.specs.Prelude.{◌≡◌, ◌<◌};
ghost use Rattle.refusal.specs.Numbers.{answer_of};
ghost use Rattle.event_join.specs.Join.{joined, join_number};

use refusal::Refusal;
use table::Table;

// Event 8: whether it is refused, for a table of so many machines, the dead ones among them.
#[tactic(auto, unfolding(crate::specs::Join::join_number))]
pub fn join_number(count: u8, a: u8) -> Result<(), Refusal>
    ensures { answer_of result ≡ join_number count a }
{
    if 16 <= count {
        return Err(Refusal::NoMachineLeft);
    }
    if a != count {
        return Err(Refusal::NotNextMachine);
    }
    Ok(())
}

// Machine a is there, alive, with no copy reserved or running, and no wait. Its pool and what it was told are not written: check 9 has them empty.
#[tactic(auto, unfolding(crate::specs::Join::joined, table::specs::Views::parts))]
pub fn joined(t: Table, a: u8) -> Table
    requires { (a < 16) × (t.machine_count < 16) }
    ensures { result ≡ joined t a }
{
    let mut u = t;
    u.machines[a as usize] = table::idle_machine(1);
    u.machine_count += 1;
    u
}
