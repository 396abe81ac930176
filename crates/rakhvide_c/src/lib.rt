// The C interface: what a program in C or Rust calls of Rakhvide, under the names that include/rakhvide.h declares.
// Each function is one of the crates below under a plain name; no function asks anything of its numbers or bytes.
#![tactic(auto)]

ghost use Rattle.std.specs.Prelude.{◌≡◌, true, length, take, is_some, unwrap_or};
ghost use Rattle.std.specs.Float.{binary64};
ghost use Rattle.std.specs.Float.Ieee.{to_bits};
ghost use Rattle.isin.specs.Isin.{verdict_of};
ghost use Rattle.pricer.specs.Price.{zero_price, fixed_price};
ghost use Rattle.book_term.specs.Term.{term_of, term_number};
ghost use Rattle.book.specs.Book.{book_verdict};
ghost use Rattle.book_writer.specs.Writer.{add_number, add_bytes};
ghost use Rattle.worst_run.specs.Worst.{worst_number, worst_buffer};
ghost use Rattle.page.specs.Page.{events_of, printed_of, buffer_of, Reported};
ghost use Rattle.snapshot.specs.Snapshot.{check_of, step_number, step_bytes, open_number, open_bytes, open_jobs_of};
ghost use Rattle.rakhvide_c.specs.Terms.{term_bits};

use pricer::FixedBond;

// 0 for an identifier that passes, 4 for its form, 5 for its check digit.
#[unsafe(no_mangle)]
pub extern "C" fn rakhvide_identifier(s: &[u8]) -> u8
    ensures { result ≡ verdict_of s.now }
{
    refusal::answer(isin::verdict(s))
}

// The number of a book's refusal, or 0.
#[unsafe(no_mangle)]
pub extern "C" fn rakhvide_book(book: &[u8]) -> u8
    ensures { result ≡ book_verdict book.now }
{
    refusal::answer(book::verdict(book))
}

// Adds an entry to the book in the first `count` bytes of the buffer: 0, or the number of a refusal, which leaves the buffer as it was.
#[unsafe(no_mangle)]
pub extern "C" fn rakhvide_add(
    buffer: &mut [u8],
    count: usize,
    identifier: &[u8],
    term: &[u8],
) -> u8
    ensures value { result ≡ add_number buffer.old count identifier.now term.now }
    ensures buffer_after { buffer.new ≡ add_bytes buffer.old count identifier.now term.now }
{
    refusal::answer(book_writer::add(buffer, count, identifier, term))
}

// Writes the events of the run that copies most, with so many machines and deaths, to the front of the buffer: 0, or the number of a refusal, which
// leaves the buffer as it was.
#[unsafe(no_mangle)]
pub extern "C" fn rakhvide_worst_run(machines: u64, deaths: u64, buffer: &mut [u8]) -> u8
    ensures value { result ≡ worst_number machines deaths (length buffer.old) }
    ensures buffer_after { buffer.new ≡ worst_buffer machines deaths buffer.old }
{
    refusal::answer(worst_run::write(machines, deaths, buffer))
}

// 0 and the bits of the price of a term's bond; or 7, and the bits are left as they were.
#[tactic(auto, unfolding(crate::specs::Terms::term_bits))]
#[unsafe(no_mangle)]
pub extern "C" fn rakhvide_term(term: &[u8], bits: &mut u64) -> u8
    ensures value { result ≡ term_number (term_of term.now) }
    ensures bits_after { bits.new ≡ term_bits (term_of term.now) bits.old }
{
    let (number, after) = match book_term::read(term) {
        Some(b) => (0, pricer::price_bits(b)),
        None => (7, *bits),
    };
    *bits = after;
    number
}

// The bits of a zero-coupon bond's price.
#[unsafe(no_mangle)]
pub extern "C" fn rakhvide_price_zero(periods: u8, payments: u8, ytm: f64) -> u64
    ensures { result ≡ to_bits binary64 (zero_price periods payments ytm) }
{
    pricer::bits(pricer::price_zero(periods, payments, ytm))
}

// The bits of a fixed coupon bond's price.
#[unsafe(no_mangle)]
pub extern "C" fn rakhvide_price_fixed(periods: u8, payments: u8, coupon: f64, ytm: f64) -> u64
    ensures { result ≡ to_bits binary64 (fixed_price (record { periods = periods; coupon = coupon; ytm = ytm }) payments) }
{
    let b = FixedBond {
        periods,
        coupon,
        ytm,
    };
    pricer::bits(pricer::price_fixed(b, payments))
}

// Runs the events on the fresh table of the book, and writes the page to the front of the buffer and its length. A buffer that is too short is left
// as it is, and the length is 0. What is written for an accepted book tells a run of which demand 3 holds.
#[unsafe(no_mangle)]
pub extern "C" fn rakhvide_page(
    book: &[u8],
    events: &[u8],
    out: &mut [u8],
    length: &mut usize,
) -> bool
    ensures value { result ≡ is_some (printed_of book.now events.now out.old) }
    ensures length_after { length.new ≡ unwrap_or (printed_of book.now events.now out.old) 0 }
    ensures out_after { out.new ≡ buffer_of book.now events.now out.old }
    ensures reported { book_verdict book.now ≡ 0 → result ≡ true
        → Reported book.now (events_of events.now) (take length.new out.new) }
{
    let printed = page::page(book, events, out);
    *length = printed.unwrap_or(0);
    printed.is_some()
}

// Opens a book into the bytes of a snapshot: the book's number, 9 for another length, or 0 and the fresh table.
#[unsafe(no_mangle)]
pub extern "C" fn rakhvide_open(book: &[u8], table: &mut [u8]) -> u8
    ensures value { result ≡ open_number book.now table.old }
    ensures table_after { table.new ≡ open_bytes book.now table.old }
{
    refusal::answer(snapshot::open(book, table))
}

// Check 9 of a snapshot: 0 or 9.
#[unsafe(no_mangle)]
pub extern "C" fn rakhvide_check(table: &[u8]) -> u8
    ensures { result ≡ check_of table.now }
{
    refusal::answer(snapshot::check(table))
}

// One event on a snapshot: its number, and where it is 0 the table after it.
#[unsafe(no_mangle)]
pub extern "C" fn rakhvide_step(table: &mut [u8], event: &[u8]) -> u8
    ensures value { result ≡ step_number table.old event.now }
    ensures table_after { table.new ≡ step_bytes table.old event.now }
{
    refusal::answer(snapshot::step(table, event))
}

// How many jobs are open, as a snapshot keeps it: one byte is read. 255 for bytes of another length.
#[unsafe(no_mangle)]
pub extern "C" fn rakhvide_open_jobs(table: &[u8]) -> u8
    ensures { result ≡ open_jobs_of table.now }
{
    snapshot::open_jobs(table).unwrap_or(255)
}
