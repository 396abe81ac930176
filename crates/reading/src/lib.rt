// Reading into a buffer that the caller has: what the program and the programs that run outside cases share.
#![tactic(auto)]

ghost use Rattle.std.specs.Prelude.{◌≡◌, ◌≤◌, length, take};

use std::io::Read;

// Reads until buf is full, the file ends or a read fails, and answers how many bytes it put at the start of buf.
// No method of the library does that: `read_exact` does not say how far a short file went, and `read_to_end` needs a Vec, so the heap.
pub fn read_full(file: &mut impl Read, buf: &mut [u8]) -> usize
    ensures in_bounds { result ≤ length buf.new }
    ensures prefix { result ≡ length (take result buf.new) }
{
    let mut done = 0;
    while done < buf.len() {
        let n = file.read(&mut buf[done..]).unwrap_or(0);
        if n == 0 {
            break;
        }
        done += n;
    }
    done
}
