// Reading a part of standard input whole. It knows nothing of what is read.
// What an input gives no contract can say: the promise is that what is counted lies within the buffer.
#![tactic(auto)]

ghost use Rattle.std.specs.Prelude.{◌≤◌, length, IfOk};

use std::io;
use std::io::Read;

// Reads until buf is full or the input ends, and answers how many bytes it put at the start of buf.
pub fn read_full(rt: &impl Input, buf: &mut [u8]) -> io::Result<usize>
    ensures { IfOk result (λ n. n ≤ length buf.new) }
{
    let mut reader = rt.reader();
    let mut n = 0;
    // Kept: read_exact loses the count where the input ends early, read_to_end fills a list on the heap, and io::copy promises no bound on its count.
    while n < buf.len() {
        match reader.read(&mut buf[n..])? {
            0 => break,
            more => n += more,
        }
    }
    Ok(n)
}
