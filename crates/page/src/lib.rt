// The page as a function on slices: a book and a list of events in, text out.
#![tactic(auto)]

ghost use Rattle.std.specs.Prelude.{◌≡◌, true, ◌≤◌, ◌<◌, length, take, IfSome};
ghost use Rattle.text.specs.Text.{Written};
ghost use Rattle.text.specs.Cursor.{Room, Writes};
ghost use Rattle.page_lines.specs.Lines.{book_refused_line};
ghost use Rattle.book.specs.Book.{book_verdict};
ghost use Rattle.validity.specs.Validity.{table_ok};
ghost use Rattle.dispatcher.specs.Events.{bytes_most, events_in};
ghost use Rattle.page.specs.Page.{events_of, entries_text, text_from, page_of, entries_most, longest, buffer_of, printed_of, Reported};

use table::Table;
use text::Cursor;

// Of a list of events no more bytes count.
pub const BYTES_MOST: usize = 60000;

// No page is longer: the lines of 20,000 refused events and of 64 entries, and the last line.
pub const LONGEST: usize = 20000 * 23 + 64 * 48 + 8;

// The lines of the entries, by a table that passes check 9.
fn put_entries(c: &mut Cursor, book: &[u8], t: Table)
    requires t_value { table_ok t ≡ true }
    requires entries_most_in_bounds { Room c.old entries_most }
    ensures { Writes c.old (entries_text book.now t) c.new }
{
    let n = book::entry_count(book) as usize;
    for i in 0..n {
        page_lines::put_entry(c, book::identifier_at(book, i), t.jobs[i]);
    }
}

// The page of an accepted book, whose fresh table is t.
fn put_run(book: &[u8], t: Table, events: &[u8], out: &mut [u8]) -> usize
    requires t_value { table_ok t ≡ true }
    requires events_len_bound { (length events.now ≤ bytes_most) × (longest ≤ length out.old) }
    ensures { Written out.old 0 (text_from book.now t (events_in events.now)) out.new result }
{
    let ran = page_run::run(t, events, out);
    let mut c = Cursor::new(out, ran.length);
    put_entries(&mut c, book, ran.table);
    page_lines::put_open_jobs(&mut c, dispatcher::open_jobs(ran.table) as u64);
    c.at
}

// The page of a refused book, by the number of its refusal.
fn put_refused(n: u64, out: &mut [u8]) -> usize
    requires n_bound { n < 100 }
    requires out_len_bound { longest ≤ length out.old }
    ensures { Written out.old 0 (book_refused_line n) out.new result }
{
    let mut c = Cursor::new(out, 0);
    page_lines::put_book_refused(&mut c, n);
    c.at
}

// The bytes that count.
#[tactic(auto, using(std::proofs::lemmas::List::take_min))]
fn first_bytes(events: &[u8]) -> &[u8]
    ensures { result.now ≡ take bytes_most events.now }
{
    &events[..BYTES_MOST.min(events.len())]
}

// Writes the page of a book and a list of events to the front of the buffer, and answers its length. A buffer that is shorter than LONGEST is refused
// and left unchanged. What is written for an accepted book tells a run of which demand 3 holds.
#[tactic(auto, using(crate::proofs::Pages::short_printed, crate::proofs::Pages::short_buffer))]
pub fn page(book: &[u8], events: &[u8], out: &mut [u8]) -> Option<usize>
    ensures value { result ≡ printed_of book.now events.now out.old }
    ensures out_after { out.new ≡ buffer_of book.now events.now out.old }
    ensures reported { book_verdict book.now ≡ 0 → IfSome result (λ n. Reported book.now (events_of events.now) (take n out.new)) }
{
    if out.len() < LONGEST {
        return None;
    }
    if let Err(refusal) = book::verdict(book) {
        return Some(put_refused(u8::from(refusal) as u64, out));
    }
    let t = table_opening::fresh(book);
    Some(put_run(book, t, first_bytes(events), out))
}

// The page, as the part of the buffer that it was written to. The buffer has room for every page.
pub fn page_in<'a>(book: &[u8], events: &[u8], out: &'a mut [u8]) -> &'a mut [u8]
    requires { longest ≤ length out.old }
    ensures { result.now ≡ page_of book.now events.now }
{
    let length = page(book, events, out).unwrap();
    &mut out[..length]
}
