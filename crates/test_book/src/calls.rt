// A call of the writer, with the number that it must answer and the buffer that it must leave.
//
// A record begins with 7 bytes: the length of the buffer in two; the expected number; the stated count in two; the lengths of the identifier
// and of the terms. Then come the buffer, the identifier, the terms, and the buffer as it must be afterwards. All is little-endian.
ghost use Rattle.std.specs.Prelude.{◌<◌};

use test_report::Record;

// The record of a call.
pub struct Call;

// How many bytes the first record of s has; where s ends before it says so, at least as many as s.
fn size(s: &[u8]) -> usize
    ensures { 0 < result }
{
    match s.first_chunk::<7>() {
        Some(head) => 7
            + 2 * endian::u16_at(head, 0) as usize
            + head[5] as usize
            + head[6] as usize,
        None => 7,
    }
}

// What a record holds.
#[derive(Clone, Copy)]
struct Parts<'a> {
    buffer: &'a [u8],
    count: usize,
    identifier: &'a [u8],
    term: &'a [u8],
    number: u8,
    after: &'a [u8],
}

// The parts of a record; none where it ends before its terms do.
fn read(record: &[u8]) -> Option<Parts<'_>> {
    let (head, rest) = record.split_first_chunk::<7>()?;
    let (buffer, rest) = rest.split_at_checked(endian::u16_at(head, 0) as usize)?;
    let (identifier, rest) = rest.split_at_checked(head[5] as usize)?;
    let (term, after) = rest.split_at_checked(head[6] as usize)?;
    Some(Parts {
        buffer,
        count: endian::u16_at(head, 3) as usize,
        identifier,
        term,
        number: head[2],
        after,
    })
}

impl Record for Call {
    fn split(s: &[u8]) -> Option<(&[u8], &[u8])> {
        crate::split(s, size(s))
    }

    fn expected(record: &[u8]) -> Option<u8> {
        crate::expected(record)
    }

    // A longer buffer than the files have is a difference.
    fn agrees(record: &[u8]) -> bool {
        let Some(call) = read(record) else {
            return false;
        };
        let mut work = [0u8; 2048];
        let Some(buffer) = work.get_mut(..call.buffer.len()) else {
            return false;
        };
        buffer.copy_from_slice(call.buffer);
        let answer = book_writer::add(buffer, call.count, call.identifier, call.term);
        refusal::answer(answer) == call.number && *buffer == *call.after
    }
}
