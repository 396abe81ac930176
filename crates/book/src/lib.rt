// The book: its sizes, its lowest faulty entry, and the parts of an entry.
#![tactic(auto)]

ghost use Rattle.std.specs.Prelude.{◌≡◌, ◌+◌, ◌*◌, ◌≤◌, ◌<◌, length};
ghost use Rattle.refusal.specs.Numbers.{answer_of};
ghost use Rattle.book.specs.Book.{identifier_at, same_bytes, fault_at, lowest_fault, sizes_in_range, book_verdict};
ghost use Rattle.book.specs.Entry.{holds, entry_fault};
ghost use Rattle.book.specs.Parts.{IsSize, size_at, term_bond_at, machine_count_of, entry_count_of, identifier_of, identifier_number, part_of, bond_of};

use pricer::Bond;
use refusal::Refusal;

// Whether a and b hold the same bytes, from the last byte on: identifiers that begin alike mostly differ near their end.
fn equal(a: &[u8], b: &[u8]) -> bool
    ensures { result ≡ same_bytes a.now b.now }
{
    if a.len() != b.len() {
        return false;
    }
    for i in (0..a.len()).rev() {
        if a[i] != b[i] {
            return false;
        }
    }
    true
}

// Whether one of the first n entries has this identifier.
fn holds(s: &[u8], n: usize, id: &[u8]) -> bool
    requires { 4 + 12 * n ≤ length s.now }
    ensures { result ≡ holds s.now n id.now }
{
    for k in 0..n {
        if equal(identifier_at(s, k), id) {
            return true;
        }
    }
    false
}

// The fault of an entry with this identifier and these terms, which comes after the first n of a book.
pub fn entry_fault(s: &[u8], n: usize, id: &[u8], term: &[u8]) -> Result<(), Refusal>
    requires { 4 + 12 * n ≤ length s.now }
    ensures { answer_of result ≡ entry_fault s.now n id.now term.now }
{
    isin::verdict(id)?;
    if holds(s, n, id) {
        return Err(Refusal::RepeatedIdentifier);
    }
    book_term::read(term).ok_or(Refusal::TermOutsideRules)?;
    Ok(())
}

// The fault of entry i of n.
fn fault(s: &[u8], n: usize, i: usize) -> Result<(), Refusal>
    requires s_len { length s.now ≡ 4 + 31 * n }
    requires i_lt_n { (i < n) × (n < 65) }
    ensures { answer_of result ≡ fault_at s.now n i }
{
    let b = 4 + 12 * n + 19 * i;
    let f = b + 19;
    entry_fault(s, i, identifier_at(s, i), &s[b..f])
}

// The fault of the lowest faulty one of n entries.
fn lowest_fault(s: &[u8], n: usize) -> Result<(), Refusal>
    requires s_len { length s.now ≡ 4 + 31 * n }
    requires n_bound { n < 65 }
    ensures { answer_of result ≡ lowest_fault s.now n }
{
    for i in 0..n {
        fault(s, n, i)?;
    }
    Ok(())
}

#[tactic(auto, unfolding(crate::specs::Book::sizes_in_range))]
fn sizes_in_range(machines: u16, entries: u16) -> bool
    ensures { result ≡ sizes_in_range machines entries }
{
    (2 <= machines) & (machines <= 16) & (entries <= 64)
}

// Whether a book is accepted: its sizes, its length, and then the lowest faulty entry.
pub fn verdict(s: &[u8]) -> Result<(), Refusal>
    ensures { answer_of result ≡ book_verdict s.now }
{
    if s.len() < 4 {
        return Err(Refusal::ShortBook);
    }
    let m = endian::u16_at(s, 0);
    let n = endian::u16_at(s, 2);
    if !sizes_in_range(m, n) {
        return Err(Refusal::SizeOutOfRange);
    }
    let entries = n as usize;
    if s.len() != 4 + 31 * entries {
        return Err(Refusal::BookLength);
    }
    lowest_fault(s, entries)
}

// A size of an accepted book, else 0.
fn size_at(s: &[u8], at: usize) -> u8
    requires { IsSize at }
    ensures { result ≡ size_at s.now at }
{
    if verdict(s).is_err() {
        return 0;
    }
    endian::u16_at(s, at) as u8
}

// The machine count of an accepted book, else 0. It answers for any book, so no Result: a table of no book has 0 machines.
pub fn machine_count(s: &[u8]) -> u8
    ensures { result ≡ machine_count_of s.now }
{
    size_at(s, 0)
}

// The entry count of an accepted book, else 0, and no Result as with the machine count.
pub fn entry_count(s: &[u8]) -> u8
    ensures { result ≡ entry_count_of s.now }
{
    size_at(s, 2)
}

// The identifier of entry i, of a book that is long enough to have it.
#[tactic(auto, using(crate::proofs::Faults::is_identifier))]
pub fn identifier_at(s: &[u8], i: usize) -> &[u8]
    requires { 16 + 12 * i ≤ length s.now }
    ensures { result.now ≡ identifier_at s.now i }
{
    let a = 4 + 12 * i;
    let end = a + 12;
    &s[a..end]
}

// The identifier of entry i, as that part of the book. A faulty book is refused by its own number, an entry number of n or more by 11.
pub fn identifier(s: &[u8], i: usize) -> Result<&[u8], Refusal>
    ensures part { part_of result ≡ identifier_of s.now i }
    ensures number { answer_of result ≡ identifier_number s.now i }
{
    verdict(s)?;
    let n = endian::u16_at(s, 2) as usize;
    if n <= i {
        return Err(Refusal::NumberTooLarge);
    }
    Ok(identifier_at(s, i))
}

// The bond of entry i of n, of a book that is as long as n entries are.
pub fn term_bond_at(s: &[u8], n: usize, i: usize) -> Bond
    requires s_len { length s.now ≡ 4 + 31 * n }
    requires i_lt_n { (i < n) × (n < 65) }
    ensures { result ≡ term_bond_at s.now n i }
{
    let b = 4 + 12 * n + 19 * i;
    let f = b + 19;
    book_term::read(&s[b..f]).unwrap_or(pricer::NO_BOND)
}

// The bond of entry i; no bond for a faulty book or an entry number of n or more. It has a bond for each question, so no Result.
pub fn bond(s: &[u8], i: usize) -> Bond
    ensures { result ≡ bond_of s.now i }
{
    let n = entry_count(s) as usize;
    if i < n {
        term_bond_at(s, n, i)
    } else {
        pricer::NO_BOND
    }
}
