// Event 2 by the parts of a table that it looks at: whether it is refused, by its refusals in document 01's order, and the change that it makes
// where it is not.
#![tactic(auto)]

ghost use Rattle.std.specs.Prelude.{◌≡◌, ◌<◌};
ghost use Rattle.refusal.specs.Numbers.{answer_of};
ghost use Rattle.event_steal.specs.Steal.{steal_number};
ghost use Rattle.event_steal.specs.StealParts.{steal_change};

use protocol_change::{Change, Parts};
use refusal::Refusal;
use table::{Machine, Message};

// Whether it is refused, for thief a, which is n, and victim b, which is v: whether a was told that b is dead, and how many messages are in flight.
#[tactic(auto, unfolding(crate::specs::Steal::steal_number))]
pub fn steal_number(n: Machine, v: Machine, told: u8, used: u8, a: u8, b: u8) -> Result<(), Refusal>
    ensures { answer_of result ≡ steal_number n v told used a b }
{
    if n.alive != 1 {
        return Err(Refusal::DeadMachine);
    }
    if a == b {
        return Err(Refusal::OwnVictim);
    }
    if n.waits != 0 {
        return Err(Refusal::AlreadyWaits);
    }
    if told != 0 {
        return Err(Refusal::VictimKnownDead);
    }
    if (v.alive == 1) & (128 <= used) {
        return Err(Refusal::FullFlight);
    }
    Ok(())
}

// Thief a sends FISH to b and waits on b.
#[tactic(auto, unfolding(crate::specs::StealParts::steal_change, table::specs::Parts::waiting, table::specs::Parts::message, protocol_change::specs::Change::silent))]
pub fn stolen(p: Parts, a: u8, b: u8) -> Change
    requires { b < 255 }
    ensures { result ≡ steal_change p a b }
{
    Change {
        machine: Machine {
            waits: b + 1,
            ..p.machine
        },
        sent: Some(Message {
            kind: table::FISH,
            from: a,
            to: b,
            ..table::NO_MESSAGE
        }),
        ..protocol_change::silent(p)
    }
}
