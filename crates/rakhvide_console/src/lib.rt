// The program's reading and writing. What it prints is a function of the two files alone (crate page). What stands in the way of reading or writing
// is said on standard error; the exit status is 0 all the same.
#![tactic(auto)]

ghost use Rattle.std.specs.Prelude.{◌≡◌, ◌≤◌, length, take};
ghost use Rattle.page.specs.Page.{page_of};

use std::fs::File;
use std::io::Read;
use std::rt::Files;

// Says on standard error what was not read of a file.
fn complain(rt: &impl Eprint, name: &str, why: &str) {
    let _ = eprintln!(rt; "{name}: {why}");
}

// Whether a read finds that the file has ended, and neither a byte more nor an error.
fn ended(file: &mut impl Read) -> bool {
    let mut next = [0u8; 1];
    matches!(file.read(&mut next), Ok(0))
}

// Reads the file into buf, as far as there is room, and answers how many bytes it read. A file that cannot be opened counts as empty, and so does one
// whose reading fails before its end or before buf is full: half a list of events does not pass for the list.
fn load(rt: &(impl Files + Eprint), name: &str, buf: &mut [u8]) -> usize
    ensures in_bounds { result ≤ length buf.new }
    ensures prefix { result ≡ length (take result buf.new) }
{
    let Ok(mut file) = File::open(rt, name) else {
        complain(rt, name, "cannot be opened, counts as empty");
        return 0;
    };
    let n = reading::read_full(&mut file, buf);
    if ended(&mut file) {
        return n;
    }
    if n == buf.len() {
        complain(rt, name, "the rest is not read");
        return n;
    }
    complain(rt, name, "cannot be read, counts as empty");
    0
}

// Prints a text on standard output. It asks that the text is the page of a book and a list of events, which are there for this alone.
fn print(rt: &(impl Print + Eprint), text: &[u8], book: &[u8], events: &[u8])
    requires { text.now ≡ page_of book.now events.now }
{
    if rt.write_all(text).is_err() {
        let _ = rt.eprintln("the page could not be written whole");
    }
}

// Prints the page of a book and a list of events.
fn print_page_of(rt: &(impl Print + Eprint), book: &[u8], events: &[u8]) {
    let mut out = [0u8; page::LONGEST];
    let text = page::page_in(book, events, &mut out);
    print(rt, text, book, events);
}

// Prints the page of book.bin and events.bin in the folder where the program is run.
//
// An accepted book has at most 4 + 31 * 64 = 1,988 bytes. Of a longer file one byte more is read: 1 asks for fewer than 4 bytes and 2 looks at the
// first 4 only, and any length above 1,988 differs from 4 + 31n, which is 3, so what was read has the number of the whole file.
pub fn print_page(rt: &(impl Files + Print + Eprint)) {
    // room for the longest of each, and how much was read: nothing is allocated
    let mut book = [0u8; 1989];
    let n = load(rt, "book.bin", &mut book);
    let mut events = [0u8; page::BYTES_MOST];
    let m = load(rt, "events.bin", &mut events);
    print_page_of(rt, &book[..n], &events[..m]);
}
