// The run that copies most (document 02, 2.7): the events that drive the replica number of job 0 as high as so many deaths can, written to the front
// of a lent buffer.
#![tactic(auto)]

ghost use Rattle.std.specs.Prelude.{◌≡◌, length};
ghost use mathlib.Core.List.{flatten};
ghost use Rattle.text.specs.Cursor.{Room, Writes};
ghost use Rattle.refusal.specs.Numbers.{answer_of};
ghost use Rattle.worst_run.specs.Worst.{death_of, worst_number, worst_buffer};

use dispatcher::{ADMIT, DELIVER, DIE, NOTICE, STEAL};
use refusal::Refusal;
use text::Cursor;

// Writes the seven events of the death of machine i.
fn put_death(c: &mut Cursor, i: u8)
    requires { Room c.old 21 }
    ensures { Writes c.old (flatten (death_of i)) c.new }
{
    let events = [
        [STEAL, i, 0],
        [DELIVER, i, 0],
        [DELIVER, 0, 0],
        [DELIVER, 0, 0],
        [DELIVER, 0, i],
        [DIE, i, 0],
        [NOTICE, 0, i],
    ];
    c.put(events.as_flattened())
}

// Whether there is such a run, and whether a buffer of so many bytes has room for it.
#[tactic(auto, using(std::proofs::lemmas::Bool::Decides::nat_tests, crate::proofs::Bytes::length_bytes), unfolding(crate::specs::Worst::worst_number))]
fn verdict(machines: u64, deaths: u64, size: usize) -> Result<(), Refusal>
    ensures { answer_of result ≡ worst_number machines deaths size }
{
    if machines < 2 || 16 < machines || machines - 1 < deaths {
        return Err(Refusal::NoSuchRun);
    }
    if (size as u64) < 3 * (1 + 7 * deaths) {
        return Err(Refusal::ShortRunBuffer);
    }
    Ok(())
}

// Writes the events of so many deaths, over a book of so many machines. A refusal leaves the buffer as it was.
pub fn write(machines: u64, deaths: u64, buffer: &mut [u8]) -> Result<(), Refusal>
    ensures value { answer_of result ≡ worst_number machines deaths (length buffer.old) }
    ensures buffer_after { buffer.new ≡ worst_buffer machines deaths buffer.old }
{
    verdict(machines, deaths, buffer.len())?;
    let mut c = Cursor::new(buffer, 0);
    c.put(&[ADMIT, 0, 0]);
    for i in 0..deaths {
        put_death(&mut c, (i + 1) as u8);
    }
    Ok(())
}
