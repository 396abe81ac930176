// Refusal 9, one message slot: what is in use is a message in order to a living machine, what is not is all 0.
// Each function is handed limits, numbers and the one message, never the table.
#![tactic(auto)]

ghost use Rattle.std.specs.Prelude.{◌≡◌};
ghost use Rattle.validity_message.specs.Message.{empty_message, with_copy, with_thief, to_root, kind_ok, ends_ok, carries_ok, thief_ok, message_ok};
ghost use Rattle.validity_message.specs.Message.{slot_ok};

use table::Message;
use validity_element::Limits;

fn empty_message(m: Message) -> bool
    ensures { result ≡ empty_message m }
{
    m == table::NO_MESSAGE
}

fn with_copy(k: u8) -> bool
    ensures { result ≡ with_copy k }
{
    (table::REQ <= k) & (k <= table::ACK) | (k == table::RESULT)
}

fn with_thief(k: u8) -> bool
    ensures { result ≡ with_thief k }
{
    (table::REQ <= k) & (k <= table::OBSOLETE)
}

fn to_root(k: u8) -> bool
    ensures { result ≡ to_root k }
{
    (k == table::REQ) | (k == table::ACK) | (k == table::RESULT)
}

fn kind_ok(m: Message) -> bool
    ensures { result ≡ kind_ok m }
{
    (table::FISH <= m.kind)
        & (m.kind <= table::RESULT)
        & ((m.kind == table::RESULT) | (m.price == 0))
}

fn ends_ok(limits: Limits, m: Message) -> bool
    ensures { result ≡ ends_ok limits.machines m }
{
    (m.from < limits.machines) & (m.to < limits.machines) & (!to_root(m.kind) | (m.to == 0))
}

fn carries_ok(limits: Limits, m: Message) -> bool
    ensures { result ≡ carries_ok limits.entries limits.replicas m }
{
    let w = with_copy(m.kind);
    w & limits.copy_ok(m.job, m.replica) | !w & ((m.job == 0) & (m.replica == 0))
}

fn thief_ok(limits: Limits, m: Message) -> bool
    ensures { result ≡ thief_ok limits.machines m }
{
    let w = with_thief(m.kind);
    w & (m.thief < limits.machines) | !w & (m.thief == 0)
}

fn message_ok(limits: Limits, m: Message) -> bool
    ensures { result ≡ message_ok limits.machines limits.entries limits.replicas m }
{
    kind_ok(m) & ends_ok(limits, m) & carries_ok(limits, m) & thief_ok(limits, m)
}

pub fn slot_ok(limits: Limits, used: u8, i: u8, alive: u8, m: Message) -> bool
    ensures { result ≡ slot_ok limits.machines limits.entries limits.replicas used i alive m }
{
    if used <= i {
        return empty_message(m);
    }
    (alive == 1) & message_ok(limits, m)
}
