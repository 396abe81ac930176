// The lines of the page, each written through a cursor.
// The caller makes sure that there is room for the longest line of the kind.
#![tactic(auto)]

ghost use Rattle.std.specs.Prelude.{◌+◌, ◌<◌, length};
ghost use Rattle.text.specs.Cursor.{Room, Writes};
ghost use Rattle.page_lines.specs.Lines.{line_end, book_refused_line, event_refused_line, not_admitted_line, open_line, priced_line, open_jobs_line};
ghost use Rattle.page_lines.specs.Lines.{entry_line};

use table::Job;
use text::Cursor;

// The end of a line: words and a number of at most two digits.
fn put_line_end(c: &mut Cursor, words: &[u8], n: u64)
    requires words_in_bounds { Room c.old (length words.now + 3) }
    requires n_bound { n < 100 }
    ensures { Writes c.old (line_end words.now n) c.new }
{
    c.put(words);
    c.put_decimal(n);
    c.put(b"\n")
}

// The line of a refused book. The refusal is a number here and below, as in the line, and as a run hands it on.
#[tactic(auto, unfolding(crate::specs::Lines::book_refused_line))]
pub fn put_book_refused(c: &mut Cursor, n: u64)
    requires at_in_bounds { Room c.old 16 }
    requires n_bound { n < 100 }
    ensures { Writes c.old (book_refused_line n) c.new }
{
    put_line_end(c, b"book refused ", n)
}

// The line of a refused event.
pub fn put_event_refused(c: &mut Cursor, place: u64, n: u64)
    requires at_in_bounds { Room c.old 23 }
    requires n_bound { n < 100 }
    ensures { Writes c.old (event_refused_line place n) c.new }
{
    c.put(b"event ");
    c.put_decimal(place);
    put_line_end(c, b" refused ", n)
}

// The last line: how many jobs are open.
#[tactic(auto, unfolding(crate::specs::Lines::open_jobs_line))]
pub fn put_open_jobs(c: &mut Cursor, n: u64)
    requires at_in_bounds { Room c.old 8 }
    requires n_bound { n < 100 }
    ensures { Writes c.old (open_jobs_line n) c.new }
{
    put_line_end(c, b"open ", n)
}

// The line of an entry that is not admitted.
fn put_not_admitted(c: &mut Cursor, identifier: &[u8])
    requires { Room c.old (length identifier.now + 36) }
    ensures { Writes c.old (not_admitted_line identifier.now) c.new }
{
    c.put(identifier);
    c.put(b" not admitted\n")
}

// The line of an entry that is open.
fn put_open(c: &mut Cursor, identifier: &[u8], replica: u64)
    requires identifier_in_bounds { Room c.old (length identifier.now + 36) }
    requires replica_bound { replica < 100 }
    ensures { Writes c.old (open_line identifier.now replica) c.new }
{
    c.put(identifier);
    put_line_end(c, b" open replica ", replica)
}

// The line of an entry that is priced.
fn put_priced(c: &mut Cursor, identifier: &[u8], price: u64, replica: u64)
    requires identifier_in_bounds { Room c.old (length identifier.now + 36) }
    requires replica_bound { replica < 100 }
    ensures { Writes c.old (priced_line identifier.now price replica) c.new }
{
    c.put(identifier);
    c.put(b" priced ");
    c.put_hex(price);
    put_line_end(c, b" replica ", replica)
}

// The line of an entry, by the state of its job.
#[tactic(auto, unfolding(crate::specs::Lines::entry_line))]
pub fn put_entry(c: &mut Cursor, identifier: &[u8], v: Job)
    requires identifier_in_bounds { Room c.old (length identifier.now + 36) }
    requires replica_bound { v.replica < 100 }
    ensures { Writes c.old (entry_line identifier.now v) c.new }
{
    match v.state {
        table::NOT_ADMITTED => put_not_admitted(c, identifier),
        table::OPEN => put_open(c, identifier, v.replica as u64),
        _ => put_priced(c, identifier, v.price, v.replica as u64),
    }
}
