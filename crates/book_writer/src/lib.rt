// The writer: an entry is added to the book at the front of a lent buffer.
#![tactic(auto)]

ghost use Rattle.std.specs.Prelude.{◌≡◌, ◌++◌, ◌+◌, ◌-◌, ◌*◌, ◌≤◌, ◌<◌, length, take, drop, set};
ghost use Rattle.refusal.specs.Numbers.{answer_of};
ghost use Rattle.text.specs.Text.{over};
ghost use Rattle.book_writer.specs.Writer.{book_number, add_number, add_bytes};

use refusal::Refusal;
use text::Cursor;

// Whether the book s at the front of a buffer of `size` bytes takes the entry. The book is read once: an accepted one has its entry count in byte 2.
fn book_number(s: &[u8], size: usize, id: &[u8], term: &[u8]) -> Result<(), Refusal>
    requires { length s.now ≤ size }
    ensures { answer_of result ≡ book_number s.now size id.now term.now }
{
    book::verdict(s)?;
    let n = s[2];
    if 64 <= n {
        return Err(Refusal::SizeOutOfRange);
    }
    book::entry_fault(s, n as usize, id, term)?;
    if size - s.len() < 31 {
        return Err(Refusal::ShortBuffer);
    }
    Ok(())
}

// Whether the book in the first `count` bytes of the buffer takes the entry.
#[tactic(auto, unfolding(crate::specs::Writer::add_number))]
fn number(buffer: &[u8], count: usize, id: &[u8], term: &[u8]) -> Result<(), Refusal>
    ensures { answer_of result ≡ add_number buffer.now count id.now term.now }
{
    if buffer.len() < count {
        return Err(Refusal::BookLength);
    }
    book_number(&buffer[0..count], buffer.len(), id, term)
}

// For a book of n entries in the first `count` bytes: writes the identifier where its terms began, the terms after that, the new one last, and
// n + 1 into byte 2.
fn grow(out: &mut [u8], count: usize, n: u8, id: &[u8], term: &[u8])
    requires { (4 + 12 * n ≤ count) × (count + length id.now + length term.now ≤ length out.old) × (n < 64) }
    ensures { out.new ≡
        set (over out.old (4 + 12 * n)
        (id.now ++ (take (count - (4 + 12 * n)) (drop (4 + 12 * n) out.old) ++ term.now))) 2 (n + 1) }
{
    let at = 4 + 12 * n as usize;
    let by = id.len();
    out.copy_within(at..count, at + by);
    let mut c = Cursor::new(out, at);
    c.put(id);
    c.at = count + by;
    c.put(term);
    out[2] = n + 1;
}

// Adds an entry to the book in the first bytes of the buffer, of a stated count. A refusal leaves the buffer as it was. The count stands beside the buffer
// since what C hands over is both, and a count past the end is refused 3.
pub fn add(buffer: &mut [u8], count: usize, id: &[u8], term: &[u8]) -> Result<(), Refusal>
    ensures value { answer_of result ≡ add_number buffer.old count id.now term.now }
    ensures buffer_after { buffer.new ≡ add_bytes buffer.old count id.now term.now }
{
    number(&buffer[..], count, id, term)?;
    let n = buffer[2];
    grow(buffer, count, n, id, term);
    Ok(())
}
