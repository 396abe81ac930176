// Messages in flight. In a run they are changed in place, one slot at a time (crate `dispatcher`): the oldest message of a channel is found by
// `in_channel`, a message is taken off by moving those after it up as far as `kept`, and what is sent goes to the slot there, as `stored` and `counted`
// say. A death and a notice drop messages: `drop_to` and `drop_from` equal `keep_messages` of the crate `table`.
#![tactic(auto)]

ghost use Rattle.std.specs.Prelude.{◌≡◌, ◌≤◌, Bool};
ghost use Rattle.table.specs.Messages.{in_channel, keep_messages, not_to, not_from};
ghost use Rattle.protocol_messages.specs.InPlace.{kept, stored, counted};

use table::{Machine, Message, Table};

// Whether a message goes from a to b.
pub fn in_channel(m: Message, a: u8, b: u8) -> bool
    ensures { result ≡ in_channel a b m }
{
    (m.from == a) & (m.to == b)
}

// How many of the messages in flight stay where the one in a slot is taken off. There is none in a slot past them.
#[tactic(auto, unfolding(crate::specs::InPlace::kept))]
pub fn kept(slot: usize, used: usize) -> usize
    ensures { result ≡ kept slot used }
{
    if slot < used { used - 1 } else { used }
}

// What is stored of what is sent to one of the machines: "A message to a dead machine is stored nowhere." One of kind 0 is none.
#[tactic(auto, unfolding(crate::specs::InPlace::stored))]
pub fn stored(sent: Option<Message>, machines: &[Machine; 16]) -> Option<Message>
    ensures { result ≡ stored sent machines.now }
{
    let m = sent?;
    match machines.get(m.to as usize) {
        Some(to) if (m.kind != 0) & (to.alive == 1) => Some(m),
        _ => None,
    }
}

// How many are in flight with what is stored.
#[tactic(auto, unfolding(crate::specs::InPlace::counted))]
pub fn counted(keep: usize, m: Option<Message>) -> u8
    requires { keep ≤ 128 }
    ensures { result ≡ counted keep m }
{
    let n = keep as u8;
    match m {
        Some(m) if m.kind != 0 => n + 1,
        _ => n,
    }
}

// Only the messages that stay are in flight, in their order.
fn keep<F: Fn(Message) -> bool>(t: Table, stays: F) -> Table
    requires in_flight { t.in_flight ≤ 128 }
    requires callable { F.IsAlwaysCallable stays }
    ensures { (p : Message → Bool) → ((m : Message) (b : Bool) → F.post stays m b → b ≡ p m) → result ≡ keep_messages t p }
{
    // An array and how many of it are used: the form that the table has them in.
    let mut out = [table::NO_MESSAGE; 128];
    let mut w = 0;
    for m in &t.messages[..t.in_flight as usize] {
        if stays(*m) {
            out[w] = *m;
            w += 1;
        }
    }
    Table {
        messages: out,
        in_flight: w as u8,
        ..t
    }
}

// "messages to it are dropped"
pub fn drop_to(t: Table, x: u8) -> Table
    requires { t.in_flight ≤ 128 }
    ensures { result ≡ keep_messages t (not_to x) }
{
    keep(t, |m| m.to != x)
}

// "Undelivered messages from b to a are dropped."
pub fn drop_from(t: Table, b: u8, a: u8) -> Table
    requires { t.in_flight ≤ 128 }
    ensures { result ≡ keep_messages t (not_from b a) }
{
    keep(t, |m| !in_channel(m, b, a))
}
