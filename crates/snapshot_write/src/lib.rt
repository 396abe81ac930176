// Writing a snapshot: its bytes into a lent buffer, part after part through a cursor.
#![tactic(auto)]

ghost use Rattle.std.specs.Prelude.{◌≡◌, ◌+◌, ◌*◌, ◌≤◌, ◌++◌, List, ℕ, length, get_or, set};
ghost use Rattle.text.specs.Text.{over, joined};
ghost use Rattle.text.specs.Cursor.{Room, Writes};
ghost use Rattle.table.specs.Views.{no_job, no_machine, no_message, past_bond};
ghost use Rattle.snapshot_read.specs.Layout.{message_size, jobs_start, table_size};
ghost use Rattle.snapshot_write.specs.Bytes.{entries_size, machine_state_size, bytes64, case_of, coupon_bits};
ghost use Rattle.snapshot_write.specs.Bytes.{yield_bits, bond_bytes, job_bytes, machine_bytes, message_bytes, jobs_bytes};
ghost use Rattle.snapshot_write.specs.Bytes.{entries_bytes, machine_state_bytes, numbers_bytes, numbers_size, encode};

use pricer::{Bond, Terms};
use table::{Job, Machine, Message, Table};
use text::Cursor;

// ---- one element

#[tactic(auto, using(crate::proofs::Lengths::low_first))]
fn put_u64(c: &mut Cursor, x: u64)
    requires { Room c.old 8 }
    ensures { Writes c.old (bytes64 x) c.new }
{
    c.put(&x.to_le_bytes())
}

fn case_of(t: Terms) -> u8
    ensures { result ≡ case_of t }
{
    match t {
        Terms::Zero(_) => 0,
        Terms::Fixed(_, _) => 1,
    }
}

fn coupon_bits(t: Terms) -> u64
    ensures { result ≡ coupon_bits t }
{
    match t {
        Terms::Zero(_) => 0,
        Terms::Fixed(c, _) => pricer::bits(c),
    }
}

fn yield_bits(t: Terms) -> u64
    ensures { result ≡ yield_bits t }
{
    match t {
        Terms::Zero(y) => pricer::bits(y),
        Terms::Fixed(_, y) => pricer::bits(y),
    }
}

// What the arrays of a snapshot hold: its bytes there, and how they are written.
trait Element {
    ghost bytes: { Self → List ℕ };

    // What stands past the end of an array.
    ghost none: { Self };

    fn put(&self, c: &mut Cursor)
        requires { Room c.old (length (bytes self.now)) }
        ensures { Writes c.old (bytes self.now) c.new };
}

impl Element for Bond {
    ghost bytes = { bond_bytes };

    ghost none = { past_bond };

    #[tactic(auto, using(crate::proofs::Lengths::length_bond, crate::proofs::Lengths::end_64))]
    fn put(&self, c: &mut Cursor) {
        let t = self.terms;
        let first = [case_of(t), self.periods, self.payments];
        c.put(&first);
        put_u64(c, coupon_bits(t));
        put_u64(c, yield_bits(t))
    }
}

impl Element for Job {
    ghost bytes = { job_bytes };

    ghost none = { no_job };

    #[tactic(auto, using(crate::proofs::Lengths::length_job, crate::proofs::Lengths::end_64))]
    fn put(&self, c: &mut Cursor) {
        let first = [
            self.state,
            self.replica,
            self.moving,
            self.holder,
            self.thief,
        ];
        c.put(&first);
        put_u64(c, self.price)
    }
}

impl Element for Machine {
    ghost bytes = { machine_bytes };

    ghost none = { no_machine };

    #[tactic(auto, unfolding(crate::specs::Bytes::machine_bytes))]
    fn put(&self, c: &mut Cursor) {
        let all = [
            self.alive,
            self.reserved_job,
            self.reserved_replica,
            self.reserved_thief,
            self.running_job,
            self.running_replica,
            self.waits,
        ];
        c.put(&all)
    }
}

impl Element for Message {
    ghost bytes = { message_bytes };

    ghost none = { no_message };

    #[tactic(auto, using(crate::proofs::Lengths::length_message, crate::proofs::Lengths::end_64))]
    fn put(&self, c: &mut Cursor) {
        let first = [
            self.kind,
            self.from,
            self.to,
            self.job,
            self.replica,
            self.thief,
        ];
        c.put(&first);
        put_u64(c, self.price)
    }
}

// The elements, one after another.
fn put_all<T: Element>(c: &mut Cursor, elements: &[T])
    requires { Room c.old (length (joined (λ i. T.bytes (get_or elements.now i T.none)) (length elements.now))) }
    ensures { Writes c.old (joined (λ i. T.bytes (get_or elements.now i T.none)) (length elements.now)) c.new }
{
    for x in elements {
        x.put(c);
    }
}

// ---- the whole

// The counts, the terms of each entry and the jobs.
fn put_entries(c: &mut Cursor, t: &Table)
    requires { Room c.old entries_size }
    ensures { Writes c.old (entries_bytes t.now) c.new }
{
    let counts = [t.machine_count, t.entry_count];
    c.put(&counts);
    put_all(c, &t.bonds);
    put_all(c, &t.jobs)
}

// The machines, what each was told and its pool.
fn put_machine_state(c: &mut Cursor, t: &Table)
    requires { Room c.old machine_state_size }
    ensures written { Writes c.old (machine_state_bytes t.now) c.new }
    ensures value { c.new.at ≡ c.old.at + machine_state_size }
{
    put_all(c, &t.machines);
    c.put(&t.told);
    c.put(&t.pools)
}

// How many messages are in flight, how many jobs are open, and the first n slots.
fn put_flight(c: &mut Cursor, t: &Table, n: usize)
    requires { (n ≤ 128) × (Room c.old (numbers_size + n * message_size)) }
    ensures { Writes c.old (numbers_bytes t.now ++ joined (λ i. message_bytes (get_or t.now.messages i no_message)) n) c.new }
{
    let numbers = [t.in_flight, t.open_jobs];
    c.put(&numbers);
    let messages: &[Message] = &t.messages;
    put_all(c, &messages[..n])
}

// Writes the table over a buffer of its size.
pub fn encode(t: &Table, out: &mut [u8])
    requires { length out.old ≡ table_size }
    ensures { out.new ≡ encode t.now }
{
    let mut c = Cursor::new(out, 0);
    put_entries(&mut c, t);
    put_machine_state(&mut c, t);
    put_flight(&mut c, t, 128);
}

// Writes what an event may change: all but the entry count, the terms and the slots from n on.
pub fn put_changes(t: &Table, n: usize, out: &mut [u8])
    requires { (n ≤ 128) × (length out.old ≡ table_size) }
    ensures { out.new ≡ over (set out.old 0 t.now.machine_count) jobs_start
        (jobs_bytes t.now.jobs ++ machine_state_bytes t.now
        ++ (numbers_bytes t.now ++ joined (λ i. message_bytes (get_or t.now.messages i no_message)) n)) }
{
    out[0] = t.machine_count;
    let mut c = Cursor::new(out, snapshot_read::JOBS_START);
    put_all(&mut c, &t.jobs);
    put_machine_state(&mut c, t);
    put_flight(&mut c, t, n);
}
