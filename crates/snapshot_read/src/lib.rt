// Reading a snapshot: whether bytes are those of a table, and the table that they stand for. The layout is in specs/Layout.antt.
#![tactic(auto)]

ghost use Rattle.std.specs.Prelude.{◌≡◌, ℕ, ◌+◌, ◌*◌, ◌<◌, ◌≤◌, List, length, get_or};
ghost use Rattle.std.specs.Float.{binary64};
ghost use Rattle.std.specs.Float.Ieee.{of_bits};
ghost use Rattle.lists.specs.Scan.{tabulate};
ghost use Rattle.snapshot_read.specs.Layout.{bond_size, job_size, machine_size, message_size, table_size, terms_from, bond_from, job_from};
ghost use Rattle.snapshot_read.specs.Layout.{machine_from, message_from, decode, terms_decodable, decodable};

use pricer::{Bond, Terms};
use std::array;
use table::{Job, Machine, Message, Table};

// ---- the layout, as in specs/Layout.antt: the size of each element and where in it its numbers of 8 bytes are, then where each region starts

pub const COUPON_AT: usize = 3;

pub const YIELD_AT: usize = COUPON_AT + 8;

pub const BOND_SIZE: usize = YIELD_AT + 8;

pub const JOB_PRICE_AT: usize = 5;

pub const JOB_SIZE: usize = JOB_PRICE_AT + 8;

pub const MACHINE_SIZE: usize = 7;

pub const MESSAGE_PRICE_AT: usize = 6;

pub const MESSAGE_SIZE: usize = MESSAGE_PRICE_AT + 8;

pub const BONDS_START: usize = 2;

pub const JOBS_START: usize = BONDS_START + 64 * BOND_SIZE;

pub const MACHINES_START: usize = JOBS_START + 64 * JOB_SIZE;

pub const TOLD_START: usize = MACHINES_START + 16 * MACHINE_SIZE;

pub const POOLS_START: usize = TOLD_START + 256;

pub const USED_START: usize = POOLS_START + 1024;

pub const OPEN_START: usize = USED_START + 1;

pub const MESSAGES_START: usize = OPEN_START + 1;

pub const TABLE_SIZE: usize = MESSAGES_START + 128 * MESSAGE_SIZE;

// ---- one element

// The number of these bits. Those of a NaN stand for the one NaN.
#[tactic(auto, using(book_term::proofs::Nans::nan_of))]
fn number(bits: u64) -> f64
    ensures { result ≡ of_bits binary64 bits }
{
    if book_term::is_nan(bits) {
        return f64::NAN;
    }
    f64::from_bits(bits)
}

#[tactic(auto, unfolding(crate::specs::Layout::terms_from))]
fn terms(s: &[u8], at: usize) -> Terms
    requires { at + bond_size ≤ length s.now }
    ensures { result ≡ terms_from s.now at }
{
    let ytm = number(endian::u64_at(s, at + YIELD_AT));
    if s[at] == 0 {
        return Terms::Zero(ytm);
    }
    let coupon = number(endian::u64_at(s, at + COUPON_AT));
    Terms::Fixed(coupon, ytm)
}

// What the arrays of a snapshot hold: its size there, and how it is read from an index on.
trait Element {
    const SIZE: usize;

    ghost SIZE: { ℕ };

    ghost from: { List ℕ → ℕ → Self };

    fn read(s: &[u8], at: usize) -> Self
        requires { at + SIZE ≤ length s.now }
        ensures { result ≡ from s.now at };
}

impl Element for Bond {
    const SIZE: usize = BOND_SIZE;

    ghost SIZE = { bond_size };

    ghost from = { bond_from };

    #[tactic(auto, unfolding(crate::specs::Layout::bond_from))]
    fn read(s: &[u8], at: usize) -> Bond {
        let terms = terms(s, at);
        Bond {
            periods: s[at + 1],
            payments: s[at + 2],
            terms,
        }
    }
}

impl Element for Job {
    const SIZE: usize = JOB_SIZE;

    ghost SIZE = { job_size };

    ghost from = { job_from };

    #[tactic(auto, unfolding(crate::specs::Layout::job_from))]
    fn read(s: &[u8], at: usize) -> Job {
        let price = endian::u64_at(s, at + JOB_PRICE_AT);
        Job {
            state: s[at],
            replica: s[at + 1],
            moving: s[at + 2],
            holder: s[at + 3],
            thief: s[at + 4],
            price,
        }
    }
}

impl Element for Machine {
    const SIZE: usize = MACHINE_SIZE;

    ghost SIZE = { machine_size };

    ghost from = { machine_from };

    #[tactic(auto, unfolding(crate::specs::Layout::machine_from))]
    fn read(s: &[u8], at: usize) -> Machine {
        Machine {
            alive: s[at],
            reserved_job: s[at + 1],
            reserved_replica: s[at + 2],
            reserved_thief: s[at + 3],
            running_job: s[at + 4],
            running_replica: s[at + 5],
            waits: s[at + 6],
        }
    }
}

impl Element for Message {
    const SIZE: usize = MESSAGE_SIZE;

    ghost SIZE = { message_size };

    ghost from = { message_from };

    #[tactic(auto, unfolding(crate::specs::Layout::message_from))]
    fn read(s: &[u8], at: usize) -> Message {
        let price = endian::u64_at(s, at + MESSAGE_PRICE_AT);
        Message {
            kind: s[at],
            from: s[at + 1],
            to: s[at + 2],
            job: s[at + 3],
            replica: s[at + 4],
            thief: s[at + 5],
            price,
        }
    }
}

// The elements from an index on.
#[tactic(auto, using(crate::proofs::Elements::element_ends))]
fn array<T: Element, const N: usize>(s: &[u8], start: usize) -> [T; N]
    requires { start + T.SIZE * N ≤ length s.now }
    ensures { result ≡ tabulate (λ i. T.from s.now (start + T.SIZE * i)) N }
{
    array::from_fn(
        |i|
            requires { start + T.SIZE * i + T.SIZE ≤ length s.now }
        { T::read(s, start + T::SIZE * i) },
    )
}

// The bytes from an index on.
fn bytes<const N: usize>(s: &[u8], start: usize) -> [u8; N]
    requires { start + N ≤ length s.now }
    ensures { result ≡ tabulate (λ i. get_or s.now (start + i) 0) N }
{
    let mut out = [0; N];
    out.copy_from_slice(&s[start..start + N]);
    out
}

// ---- the whole

// The table of the bytes.
pub fn decode(s: &[u8]) -> Table
    requires { length s.now ≡ table_size }
    ensures { result ≡ decode s.now }
{
    Table {
        machine_count: s[0],
        entry_count: s[1],
        bonds: array(s, BONDS_START),
        jobs: array(s, JOBS_START),
        machines: array(s, MACHINES_START),
        told: bytes(s, TOLD_START),
        pools: bytes(s, POOLS_START),
        in_flight: s[USED_START],
        messages: array(s, MESSAGES_START),
        open_jobs: s[OPEN_START],
    }
}

// Whether the terms at an index are those of one of the two cases.
#[tactic(auto, unfolding(crate::specs::Layout::terms_decodable))]
fn terms_decodable(s: &[u8], at: usize) -> bool
    requires { at + bond_size ≤ length s.now }
    ensures { result ≡ terms_decodable s.now at }
{
    (s[at] == 0) & (endian::u64_at(s, at + COUPON_AT) == 0) | (s[at] == 1)
}

// Whether the bytes are those of a table.
pub fn decodable(s: &[u8]) -> bool
    ensures { result ≡ decodable s.now }
{
    s.len() == TABLE_SIZE && (0..64).all(|i| terms_decodable(s, BONDS_START + BOND_SIZE * i))
}
