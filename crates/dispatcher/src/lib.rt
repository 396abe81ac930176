// The dispatcher: events on a table, one after another. Events 1 to 5 are functions of parts (crates `handler` and `event_*`): parts of the table in,
// a change out. `apply` is the one place where the parts are read and the change is made: on its own table, element by element, so that no table is
// copied. Die and Notice may change many parts, and Join the machine count; they take a table and give one back.
#![tactic(auto)]

ghost use Rattle.std.specs.Prelude.{◌≡◌, ◌++◌, ◌*◌, ◌≤◌, ◌<◌, true, ℕ, length, drop, None};
ghost use Rattle.refusal.specs.Numbers.{answer_of};
ghost use Rattle.validity.specs.Validity.{table_ok};
ghost use Rattle.table.specs.Views.{no_message, job_at, message_at};
ghost use Rattle.table.specs.Parts.{OPEN};
ghost use Rattle.table.specs.Messages.{oldest};
ghost use Rattle.protocol_change.specs.Change.{send_some};
ghost use Rattle.protocol_messages.specs.InPlace.{taken, stored};
ghost use Rattle.dispatcher.specs.Apply.{Passed, answered};
ghost use Rattle.dispatcher.specs.Codes.{DIE};
ghost use Rattle.dispatcher.specs.Events.{bytes_most, event_at, event_count, events_in};
ghost use Rattle.dispatcher.specs.EventParts.{code_number, named, in_range, ask_of, Asked, asked_event, slot_of, place_of, look_of, number_of};
ghost use Rattle.dispatcher.specs.EventParts.{change_of, written};
ghost use Rattle.dispatcher.specs.Step.{uses_second, step_of, run_of, answers_of};

use pricer::Bond;
use protocol_change::{Change, Parts};
use refusal::Refusal;
use table::{Machine, Message, Table};

// The codes of the events, as a byte says them: what `try_from` reads, and what `worst_run` writes.
pub const ADMIT: u8 = 1;

pub const STEAL: u8 = 2;

pub const DELIVER: u8 = 3;

pub const START: u8 = 4;

pub const DONE: u8 = 5;

pub const DIE: u8 = 6;

pub const NOTICE: u8 = 7;

pub const JOIN: u8 = 8;

// The events, by their names.
#[derive(Clone, Copy, Debug)]
pub enum Code {
    Admit,
    Steal,
    Deliver,
    Start,
    Done,
    Die,
    Notice,
    Join,
}

impl TryFrom<u8> for Code {
    type Error = Refusal;

    ghost try_from_gives = { λ code outcome. outcome ≡ named code };

    // The event of a code: there is none of a code not 1 to 8.
    #[tactic(auto, unfolding(crate::specs::EventParts::named))]
    fn try_from(code: u8) -> Result<Code, Refusal> {
        match code {
            ADMIT => Ok(Code::Admit),
            STEAL => Ok(Code::Steal),
            DELIVER => Ok(Code::Deliver),
            START => Ok(Code::Start),
            DONE => Ok(Code::Done),
            DIE => Ok(Code::Die),
            NOTICE => Ok(Code::Notice),
            JOIN => Ok(Code::Join),
            _ => Err(Refusal::MalformedEvent),
        }
    }
}

// What an event asks for: its code and its two numbers.
#[derive(Clone, Copy, Debug)]
pub struct Ask {
    pub code: Code,
    pub a: u8,
    pub b: u8,
}

// Where an event looks: a machine, a job, a told flag and a second machine.
#[derive(Clone, Copy)]
pub struct Place {
    pub machine: usize,
    pub job: usize,
    pub told: usize,
    pub peer: usize,
}

// What an event reads of the table: the slot of the message that it takes off, past those in flight where it takes none off; that message; the lowest
// job of the machine that a FISH is to; where it looks; and what stands there.
#[derive(Clone, Copy)]
pub struct Look {
    pub slot: usize,
    pub message: Message,
    pub low: Option<u8>,
    pub place: Place,
    pub parts: Parts,
    pub told: u8,
    pub peer: Machine,
}

// Whether an event has a use for b.
fn uses_second(code: Code) -> bool
    ensures { result ≡ uses_second (code_number code) }
{
    match code {
        Code::Admit | Code::Done | Code::Die | Code::Join => false,
        _ => true,
    }
}

// Whether the numbers of an event are those of m machines and n entries. Join's a is not asked about.
#[tactic(auto, unfolding(crate::specs::EventParts::in_range))]
fn in_range(m: u8, n: u8, code: Code, a: u8, b: u8) -> bool
    ensures { result ≡ in_range m n (code_number code) a b }
{
    match code {
        Code::Admit => a < n,
        Code::Start => (a < m) & (b < n),
        Code::Join => true,
        _ => (a < m) & (b < m),
    }
}

// What the bytes of an event ask for, of a table of m machines and n entries.
fn ask_of(m: u8, n: u8, bytes: &[u8]) -> Result<Ask, Refusal>
    ensures { result ≡ ask_of m n bytes.now }
{
    if bytes.len() < 3 {
        return Err(Refusal::MalformedEvent);
    }
    let code = Code::try_from(bytes[0])?;
    let a = bytes[1];
    let b = bytes[2];
    if !(uses_second(code) | (b == 0)) {
        return Err(Refusal::MalformedEvent);
    }
    if !in_range(m, n, code, a, b) {
        return Err(Refusal::NumberTooLarge);
    }
    Ok(Ask { code, a, b })
}

// The slot of the oldest message from a to b, or the number in flight where there is none.
fn oldest(t: &Table, a: u8, b: u8) -> usize
    requires { t.now.in_flight ≤ 128 }
    ensures { result ≡ oldest t.now a b }
{
    let used = t.in_flight as usize;
    for i in 0..used {
        if protocol_messages::in_channel(t.messages[i], a, b) {
            return i;
        }
    }
    used
}

// The slot of the message that an event takes off: Deliver the oldest of its channel, another event none. It is the number in flight where there is
// none, and not an Option, as in document 01's definitions (`oldest`, `deliver_number`).
#[tactic(auto, unfolding(crate::specs::EventParts::slot_of))]
fn slot_of(t: &Table, ask: Ask) -> usize
    requires { t.now.in_flight ≤ 128 }
    ensures { result ≡ slot_of t.now ask }
{
    match ask.code {
        Code::Deliver => oldest(t, ask.a, ask.b),
        _ => t.in_flight as usize,
    }
}

// The places of an event that needs none.
const FIRST: Place = Place {
    machine: 0,
    job: 0,
    told: 0,
    peer: 0,
};

// Where an event looks. The message is the one that Deliver takes off, low the lowest job of the machine that a FISH is to. Join needs no
// part, and its a may be any byte.
#[tactic(auto, unfolding(crate::specs::EventParts::place_of))]
fn place_of(ask: Ask, m: Message, low: Option<u8>) -> Place
    ensures { result ≡ place_of ask m low }
{
    let a = ask.a as usize;
    let b = ask.b as usize;
    match ask.code {
        Code::Admit => Place { job: a, ..FIRST },
        Code::Deliver => Place {
            machine: m.to as usize,
            job: handler::handled_job(m, low),
            told: m.thief as usize,
            ..FIRST
        },
        Code::Start => Place {
            machine: a,
            job: b,
            ..FIRST
        },
        Code::Join => FIRST,
        _ => Place {
            machine: a,
            job: 0,
            told: a * 16 + b,
            peer: b,
        },
    }
}

// The message in a slot; past those in flight there is none.
fn message_in(t: &Table, slot: usize) -> Message
    requires flight { t.now.in_flight ≤ 128 }
    requires empty { (i : ℕ) → t.now.in_flight ≤ i → message_at t.now i ≡ no_message }
    ensures { result ≡ message_at t.now slot }
{
    if slot < t.in_flight as usize {
        return t.messages[slot];
    }
    table::NO_MESSAGE
}

// What an event reads of a table that passes check 9.
fn look_of(t: &Table, ask: Ask) -> Look
    requires passed { Passed t.now }
    requires asked { Asked t.now ask }
    ensures { result ≡ look_of t.now ask }
{
    let slot = slot_of(t, ask);
    let message = message_in(t, slot);
    let low = handler::lowest_for(message, &t.pools);
    let place = place_of(ask, message, low);
    let machine = t.machines[place.machine];
    let job = t.jobs[place.job];
    let cell = t.pools[place.machine * 64 + place.job];
    Look {
        slot,
        message,
        low,
        place,
        parts: Parts { job, machine, cell },
        told: t.told[place.told],
        peer: t.machines[place.peer],
    }
}

// Whether an event is refused, by its code; count is the machine count.
#[tactic(auto, unfolding(crate::specs::EventParts::number_of))]
fn number_of(ask: Ask, at: Look, used: u8, count: u8) -> Result<(), Refusal>
    ensures { answer_of result ≡ number_of ask at.parts at.peer at.told used at.slot count }
{
    let machine = at.parts.machine;
    match ask.code {
        Code::Admit => event_admit_deliver_die::admit_number(at.parts.job),
        Code::Steal => event_steal::steal_number(machine, at.peer, at.told, used, ask.a, ask.b),
        Code::Deliver => event_admit_deliver_die::deliver_number(used as usize, at.slot),
        Code::Start => event_start_done::start_number(machine, at.parts.cell),
        Code::Done => event_start_done::done_number(machine, used),
        Code::Die => event_admit_deliver_die::die_number(ask.a, machine),
        Code::Notice => event_notice::notice_number(machine, at.peer, at.told),
        Code::Join => event_join::join_number(count, ask.a),
    }
}

// The change that an accepted event of code 1 to 5 makes. A price is computed for Done alone.
#[tactic(auto, unfolding(crate::specs::EventParts::change_of))]
fn change_of(ask: Ask, at: Look, bond: Bond) -> Change
    requires { ask.code ≡ Code.Steal → ask.b < 255 }
    ensures { result ≡ change_of ask at.parts at.message at.told at.low bond }
{
    match ask.code {
        Code::Admit => event_admit_deliver_die::admitted(at.parts),
        Code::Steal => event_steal::stolen(at.parts, ask.a, ask.b),
        Code::Deliver => handler::handle(at.parts, at.message, at.told, at.low),
        Code::Start => event_start_done::started(at.parts, ask.b),
        Code::Done => event_start_done::finished(at.parts, ask.a, pricer::price_bits(bond)),
        Code::Die | Code::Notice | Code::Join => protocol_change::silent(at.parts),
    }
}

// The parts are written, and the number of open jobs goes with the job's state.
fn write(u: &mut Table, place: Place, after: Change)
    requires place_bounds { (length u.old.jobs ≡ 64) × (place.machine < 16) × (place.job < 64) }
    requires open_bounds { (u.old.open_jobs < 255) × ((job_at u.old place.job).state ≡ OPEN → 1 ≤ u.old.open_jobs) }
    ensures { u.new ≡ written u.old place.machine place.job after }
{
    let was = u.jobs[place.job].state;
    let is = after.job.state;
    u.open_jobs = table::open_after(u.open_jobs, was, is);
    u.jobs[place.job] = after.job;
    u.machines[place.machine] = after.machine;
    u.pools[place.machine * 64 + place.job] = after.cell;
}

// The message in a slot is taken off, where one is in flight there, and one is sent: those after the slot move up, and what is stored of the one that
// is sent goes to the slot after them.
fn exchange(t: &mut Table, slot: usize, sent: Option<Message>)
    requires flight { (length t.old.messages ≡ 128) × (t.old.in_flight ≤ 128) × (slot ≤ t.old.in_flight) }
    requires empty { (i : ℕ) → t.old.in_flight ≤ i → message_at t.old i ≡ no_message }
    requires room { 128 ≤ t.old.in_flight → t.old.in_flight ≤ slot → stored sent t.old.machines ≡ None }
    ensures { t.new ≡ send_some (taken t.old slot) sent }
{
    let used = t.in_flight as usize;
    let keep = protocol_messages::kept(slot, used);
    for i in slot..keep {
        let m = t.messages[i + 1];
        t.messages[i] = m;
    }
    let last = protocol_messages::stored(sent, &t.machines);
    t.in_flight = protocol_messages::counted(keep, last);
    if keep < 128 {
        t.messages[keep] = last.unwrap_or(table::NO_MESSAGE);
    }
}

// An accepted event of code 1 to 5 is made in place: no table is copied.
fn make(t: &mut Table, ask: Ask, at: Look)
    requires passed { Passed t.old }
    requires asked { Asked t.old ask }
    requires looked { at ≡ look_of t.old ask }
    requires accepted { (code_number ask.code < DIE) × ((asked_event t.old ask).number ≡ 0) }
    ensures { t.new ≡ (asked_event t.old ask).table }
{
    let bond = t.bonds[at.parts.machine.running_job as usize];
    let change = change_of(ask, at, bond);
    write(t, at.place, change);
    exchange(t, at.slot, change.sent);
}

// An accepted Die, Notice or Join is made: the table is taken and one is given back. These arms stand apart from `apply`, which would make room for their
// tables at every event.
fn make_whole(t: &mut Table, ask: Ask)
    requires passed { Passed t.old }
    requires asked { Asked t.old ask }
    requires accepted { (DIE ≤ code_number ask.code) × ((asked_event t.old ask).number ≡ 0) }
    ensures { t.new ≡ (asked_event t.old ask).table }
{
    match ask.code {
        Code::Die => *t = event_admit_deliver_die::died(*t, ask.a),
        Code::Notice => *t = event_notice::noticed(*t, ask.a, ask.b),
        _ => *t = event_join::joined(*t, ask.a),
    }
}

// The bytes of event k.
fn event_at(s: &[u8], k: usize) -> &[u8]
    requires { 3 * k ≤ length s.now }
    ensures { result.now ≡ event_at s.now k }
{
    let a = 3 * k;
    if s.len() - a < 3 {
        return &s[a..];
    }
    let e = a + 3;
    &s[a..e]
}

// One event on a table that passes check 9: it is read, judged, and where it is not refused made.
pub fn apply(t: &mut Table, event: &[u8]) -> Result<(), Refusal>
    requires { Passed t.old }
    ensures number { answer_of result ≡ (step_of t.old event.now).number }
    ensures table_after { t.new ≡ (step_of t.old event.now).table }
{
    let ask = ask_of(t.machine_count, t.entry_count, event)?;
    let at = look_of(t, ask);
    number_of(ask, at, t.in_flight, t.machine_count)?;
    match ask.code {
        Code::Die | Code::Notice | Code::Join => make_whole(t, ask),
        _ => make(t, ask, at),
    }
    Ok(())
}

// All events of s, one after another, on a table that passes check 9: the table after them, and the number of each at the front of the buffer,
// as `answers_of` has them: numbers and no Results, since the buffer is the caller's bytes.
pub fn run(t: Table, s: &[u8], numbers: &mut [u8]) -> Table
    requires t_value { table_ok t ≡ true }
    requires s_len_bound { (length s.now ≤ bytes_most) × (event_count s.now ≤ length numbers.old) }
    ensures value { result ≡ run_of t (events_in s.now) }
    ensures numbers_after { numbers.new ≡ answers_of t (events_in s.now) ++ drop (event_count s.now) numbers.old }
{
    let mut u = t;
    for i in 0..(s.len() + 2) / 3 {
        let answer = apply(&mut u, event_at(s, i));
        numbers[i] = refusal::answer(answer);
    }
    u
}

// One event on any table, the entry point: the table after it, or its refusal.
pub fn step(t: Table, bytes: &[u8]) -> Result<Table, Refusal>
    ensures { answered t result ≡ step_of t bytes.now }
{
    if !validity::table_ok(t) {
        return Err(Refusal::TableOutOfOrder);
    }
    let mut u = t;
    apply(&mut u, bytes)?;
    Ok(u)
}

// How many jobs are open: "the answer reads that number only", which the table keeps.
pub fn open_jobs(t: Table) -> u8
    ensures { result ≡ t.open_jobs }
{
    t.open_jobs
}
