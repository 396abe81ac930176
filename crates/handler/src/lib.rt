// What a machine does with a message that is delivered to it, by kind, and which parts of the table it is about. Each function equals the definition
// of its name in specs/HandlerParts.antt; made on a table, the change is what specs/Handler.antt says (proofs/Made.antt).
#![tactic(auto)]

ghost use Rattle.std.specs.Prelude.{◌≡◌, ◌<◌};
ghost use Rattle.handler.specs.HandlerParts.{lowest_for, handled_job, handle_change};

use protocol_change::{Change, Parts};
use table::Message;

// The lowest job of the machine that a FISH is to; none for any other message.
#[tactic(auto, unfolding(crate::specs::HandlerParts::lowest_for))]
pub fn lowest_for(m: Message, pools: &[u8; 1024]) -> Option<u8>
    requires { m.to < 16 }
    ensures { result ≡ lowest_for m pools.now }
{
    if m.kind == table::FISH {
        protocol_pools::lowest(pools, m.to as usize)
    } else {
        None
    }
}

// The job that a message is about.
#[tactic(auto, unfolding(crate::specs::HandlerParts::handled_job))]
pub fn handled_job(m: Message, low: Option<u8>) -> usize
    ensures { result ≡ handled_job m low }
{
    if m.kind == table::FISH {
        handler_victim::fish_job(low)
    } else {
        m.job as usize
    }
}

// "handled by b": by kind.
#[tactic(auto, unfolding(crate::specs::HandlerParts::handle_change))]
pub fn handle(p: Parts, m: Message, told: u8, low: Option<u8>) -> Change
    ensures { result ≡ handle_change p m told low }
{
    // A match on numbers: the kinds are bytes in a table, and check 9 and this definition are of tables with any bytes in them.
    match m.kind {
        table::FISH => handler_victim::on_fish(p, m, low),
        table::REQ => handler_root::on_req(p, m, told),
        table::AUTH => handler_victim::on_auth(p, m),
        table::DENIED => handler_victim::on_denied(p, m),
        table::OBSOLETE => handler_victim::on_obsolete(p, m),
        table::SCHEDULE => handler_thief::on_schedule(p, m),
        table::ACK => handler_root::on_ack(p, m),
        table::NOWORK => handler_thief::on_no_work(p),
        table::RESULT => handler_root::on_result(p, m),
        _ => protocol_change::silent(p),
    }
}
