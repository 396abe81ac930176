// A snapshot, a table that is kept as bytes between calls: opened from a book, checked, and stepped by one event, each with document 01's number; and
// asked how many jobs are open.
#![tactic(auto)]

ghost use Rattle.std.specs.Prelude.{◌≡◌, ◌≤◌, ◌↔◌, true, length, IfOk, IsSome, unwrap_or};
ghost use Rattle.refusal.specs.Numbers.{answer_of};
ghost use Rattle.validity.specs.Validity.{table_ok};
ghost use Rattle.snapshot_read.specs.Layout.{table_size, decodable, decode};
ghost use Rattle.snapshot.specs.Snapshot.{check_of, step_number, step_bytes, open_number, open_bytes, open_jobs_of};

use refusal::Refusal;
use table::Table;

// The table of the bytes, where they are those of one that passes check 9.
#[tactic(auto, using(crate::proofs::Answers::decodable_length), unfolding(crate::specs::Snapshot::check_of))]
fn read(bytes: &[u8]) -> Result<Table, Refusal>
    ensures number { answer_of result ≡ check_of bytes.now }
    ensures table { IfOk result (λ t. (decodable bytes.now ≡ true) × (t ≡ decode bytes.now) × (table_ok t ≡ true)) }
{
    if !snapshot_read::decodable(bytes) {
        return Err(Refusal::TableOutOfOrder);
    }
    let t = snapshot_read::decode(bytes);
    if !validity::passes(&t) {
        return Err(Refusal::TableOutOfOrder);
    }
    Ok(t)
}

// Check 9 of the bytes. The table is not kept, and so does not come from `read`.
#[tactic(auto, using(crate::proofs::Answers::decodable_length), unfolding(crate::specs::Snapshot::check_of))]
pub fn check(table: &[u8]) -> Result<(), Refusal>
    ensures { answer_of result ≡ check_of table.now }
{
    if !snapshot_read::decodable(table) {
        return Err(Refusal::TableOutOfOrder);
    }
    if !validity::passes(&snapshot_read::decode(table)) {
        return Err(Refusal::TableOutOfOrder);
    }
    Ok(())
}

// One event on a snapshot: the bytes of the table after it, or its refusal. What no event changes is not written again.
pub fn step(table: &mut [u8], event: &[u8]) -> Result<(), Refusal>
    ensures value { answer_of result ≡ step_number table.old event.now }
    ensures table_after { table.new ≡ step_bytes table.old event.now }
{
    let mut t = read(&table[..])?;
    let before = t.in_flight;
    dispatcher::apply(&mut t, event)?;
    let n = before.max(t.in_flight) as usize;
    snapshot_write::put_changes(&t, n, table);
    Ok(())
}

// Opens a book into a buffer of a snapshot's length: the bytes of the fresh table, or the refusal of the book, or that of bytes that are no table.
pub fn open(book: &[u8], table: &mut [u8]) -> Result<(), Refusal>
    ensures value { answer_of result ≡ open_number book.now table.old }
    ensures table_after { table.new ≡ open_bytes book.now table.old }
{
    let t = table_opening::open(book)?;
    if table.len() != snapshot_read::TABLE_SIZE {
        return Err(Refusal::TableOutOfOrder);
    }
    snapshot_write::encode(&t, table);
    Ok(())
}

// How many jobs are open: the number that the bytes keep is read, and nothing else of them. None where they have another length than a snapshot.
#[tactic(auto, unfolding(crate::specs::Snapshot::open_jobs_of))]
pub fn open_jobs(table: &[u8]) -> Option<u8>
    ensures value { unwrap_or result 255 ≡ open_jobs_of table.now }
    ensures kept { IsSome result ↔ length table.now ≡ table_size }
{
    if table.len() == snapshot_read::TABLE_SIZE {
        Some(table[snapshot_read::OPEN_START])
    } else {
        None
    }
}
