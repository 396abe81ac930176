// A run as it is printed: the events of a list, one after another, on a table that passes check 9, and the lines of those that are refused.
#![tactic(auto)]

ghost use Rattle.std.specs.Prelude.{◌≡◌, true, ℕ, ◌*◌, ◌≤◌, ◌<◌, length, get_or};
ghost use Rattle.text.specs.Text.{Written};
ghost use Rattle.text.specs.Cursor.{Room, Writes};
ghost use Rattle.validity.specs.Validity.{table_ok};
ghost use Rattle.dispatcher.specs.Events.{bytes_most, events_in};
ghost use Rattle.dispatcher.specs.Step.{run_of, answers_of};
ghost use Rattle.page_run.specs.Run.{refusals_most, refusals, Listed};

use table::Table;
use text::Cursor;

// The table after the events, and the position after the lines written.
#[derive(Clone, Copy)]
pub struct Ran {
    pub table: Table,
    pub length: usize,
}

// The lines of the events that were answered these numbers: one for each that was refused.
fn put_refusals(c: &mut Cursor, numbers: &[u8])
    requires by_index { (i : ℕ) → get_or numbers.now i 0 < 100 }
    requires numbers_in_bounds { Room c.old (23 * length numbers.now) }
    ensures { Writes c.old (refusals 1 numbers.now) c.new }
{
    for (k, number) in numbers.iter().enumerate() {
        if *number != 0 {
            page_lines::put_event_refused(c, k as u64 + 1, *number as u64);
        }
    }
}

// All events of s, and the lines of the refused ones from the front of the buffer on.
pub fn run(t: Table, s: &[u8], out: &mut [u8]) -> Ran
    requires t_value { table_ok t ≡ true }
    requires s_len_bound { (length s.now ≤ bytes_most) × (refusals_most ≤ length out.old) }
    ensures { Listed out.old 0 (refusals 1 (answers_of t (events_in s.now))) (run_of t (events_in s.now))
        out.new result }
{
    // room for as many events as a list may have, of which the first n are these: nothing is allocated
    let n = (s.len() + 2) / 3;
    let mut numbers = [0u8; 20000];
    let table = dispatcher::run(t, s, &mut numbers);
    let mut c = Cursor::new(out, 0);
    put_refusals(&mut c, &numbers[..n]);
    Ran {
        table,
        length: c.at,
    }
}
