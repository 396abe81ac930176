// Compares the numbers of books and the parts of their entries with those of another implementation of documents 01 and 02
// (tools/make_book_cases.py), and in the same way the numbers and buffers of calls of the writer (tools/make_writer_cases.py).
// Prints, for each number, how many records agree and how many are expected to have it. The record of a call is in calls.rt.
//
// The record of a book begins with 6 bytes: the length of the book in two; the expected number; the machine count and the entry count, 0 for a
// refused book; how many questions are asked. Then come the book and the questions.
// A question has 25 bytes: an entry number in four; the number that goes with its identifier; the identifier; the bits of its price.
// The last two are 0 where the number is not 0. All is little-endian.
#![tactic(auto)]

mod calls;

ghost use Rattle.std.specs.Prelude.{◌+◌, ◌<◌, ◌≤◌, ⊤, length, MatchOption};

use calls::Call;
use std::rt::Files;
use test_report::Record;

// The first bytes of s, as many as size says or all that there are, and what comes after them; none where s is empty.
fn split(s: &[u8], size: usize) -> Option<(&[u8], &[u8])>
    requires { 0 < size }
    ensures { MatchOption result ⊤ (λ p. (0 < length p.0.now) × (length p.0.now + length p.1.now ≤ length s.now)) }
{
    if s.is_empty() {
        return None;
    }
    Some(s.split_at(size.min(s.len())))
}

// The number that a record of either kind expects.
fn expected(record: &[u8]) -> Option<u8> {
    let head = record.first_chunk::<6>()?;
    Some(head[2])
}

// The record of a book.
struct Book;

// How many bytes the first record of s has, of a book; where s ends before it says so, at least as many as s.
fn book_size(s: &[u8]) -> usize
    ensures { 0 < result }
{
    match s.first_chunk::<6>() {
        Some(head) => 6 + endian::u16_at(head, 0) as usize + 25 * head[5] as usize,
        None => 6,
    }
}

// Whether the book has this number and, if it is accepted, these counts.
fn sizes_agree(book: &[u8], number: u8, machines: u8, entries: u8) -> bool {
    match book::verdict(book) {
        Err(refusal) => u8::from(refusal) == number,
        Ok(()) => {
            number == 0
                && book::machine_count(book) == machines
                && book::entry_count(book) == entries
        }
    }
}

// Whether the book's identifier and price at an entry number are as the question expects.
fn entry_agrees(book: &[u8], question: &[u8; 25]) -> bool {
    let i = endian::u32_at(question, 0) as usize;
    match book::identifier(book, i) {
        Err(refusal) => u8::from(refusal) == question[4],
        Ok(identifier) => {
            question[4] == 0
                && identifier == &question[5..17]
                && pricer::price_bits(book::bond(book, i)) == endian::u64_at(question, 17)
        }
    }
}

impl Record for Book {
    fn split(s: &[u8]) -> Option<(&[u8], &[u8])> {
        crate::split(s, book_size(s))
    }

    fn expected(record: &[u8]) -> Option<u8> {
        crate::expected(record)
    }

    fn agrees(record: &[u8]) -> bool {
        let &[low, high, number, machines, entries, asked, ref rest @ ..] = record else {
            return false;
        };
        let Some((book, questions)) = rest.split_at_checked(
            u16::from_le_bytes([low, high]) as usize,
        ) else {
            return false;
        };
        let (questions, left) = questions.as_chunks::<25>();
        left.is_empty()
            && questions.len() == asked as usize
            && sizes_agree(book, number, machines, entries)
            && questions
                .iter()
                .all(|question| entry_agrees(book, question))
    }
}

// How many questions the record asks.
fn asked(record: &[u8]) -> u64
    ensures { result ≤ length «record».now }
{
    match record.get(5) {
        Some(&n) if n as usize <= record.len() => n as u64,
        _ => 0,
    }
}

// The lines of the numbers that a record of either kind may expect.
fn print_numbers<R: Record>(rt: &impl Print, data: &[u8]) {
    test_report::agreement::<R>(rt, b"accepted: ", data, 0);
    for number in 1..8 {
        let _ = print!(rt; "refused {number}");
        test_report::agreement::<R>(rt, b": ", data, number);
    }
}

// Compares the books of a file.
fn compare_books(rt: &(impl Files + Print + Eprint), name: &[u8]) {
    test_report::compare::<Book, _>(rt, name, |data| {
        print_numbers::<Book>(rt, data);
        test_report::records::<Book>(rt, b"books: ", data);
        test_report::total(
            rt,
            b"identifiers: ",
            test_report::sum::<Book, _>(data, asked),
        );
    });
}

// Compares the calls of a file.
fn compare_calls(rt: &(impl Files + Print + Eprint), name: &[u8]) {
    test_report::compare::<Call, _>(rt, name, |data| {
        print_numbers::<Call>(rt, data);
        test_report::agreement::<Call>(rt, b"refused 23: ", data, 23);
        test_report::records::<Call>(rt, b"calls: ", data);
    });
}

fn main(rt: HostRuntime) {
    compare_books(&rt, b"sizes.bin");
    compare_books(&rt, b"faults.bin");
    compare_books(&rt, b"pairs.bin");
    compare_books(&rt, b"random.bin");
    compare_books(&rt, b"payments.bin");
    compare_calls(&rt, b"writer_rules.bin");
    compare_calls(&rt, b"writer_built.bin");
    compare_calls(&rt, b"writer_random.bin");
}
