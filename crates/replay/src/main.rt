// Reads job files from standard input, each after its length in four bytes, the least first, and prints their listings one after the other.
#![tactic(auto)]

use std::io;
use std::io::Write;

// Prints the listing of a job.
// Kept: probe has these lines too. What is printed no contract says, so a function for both would be a public one that promises nothing.
fn print_listing(rt: &impl Print, bytes: &[u8]) -> io::Result<()> {
    let mut out = [0u8; job::LONGEST_LISTING];
    if let Ok(bytes) = job::answer_job(bytes, &mut out) {
        io::writer(rt).write_all(&out[..bytes])?;
    }
    Ok(())
}

fn main(rt: HostRuntime) -> io::Result<()> {
    let mut space = [0u8; 65536];
    let mut head = [0u8; 4];
    for _ in 0..100000 {
        if reading::read_full(&rt, &mut head)? < 4 {
            return Ok(());
        }
        // No stored job has 65,536 bytes or more, so the upper two bytes of its length are 0, and they are not looked at.
        let [low, high, _, _] = head;
        let len = usize::from(u16::from_le_bytes([low, high]));
        let n = reading::read_full(&rt, &mut space[..len])?;
        print_listing(&rt, &space[..n])?;
    }
    Ok(())
}
