// What the programs read and print. Which bytes reach or leave the system cannot be said in a contract, so that a
// program reads its input from the start and prints its text, all of it and once, is held by the stored runs of
// the programs. Which bytes a text has is left to those programs.
#![tactic(auto)]

ghost use Rattle.std.specs.Prelude.{◌≡◌, ◌≤◌, length, take, IsOk};
ghost use Rattle.std.specs.Io.KnownBytes.{Consumes};

use std::io::Read;

// Writes a whole text to standard output, and answers whether it could be written. The programs end with status 0
// all the same, so a failure is told on standard error.
// A bool, since the reason is told there already and callers only ask whether to go on.
pub fn print(rt: &(impl Print + Eprint), text: &[u8]) -> bool {
    if rt.write_all(text).is_ok() {
        return true;
    }
    let _ = rt.eprintln("the text could not be written to standard output");
    false
}

// Reads until the buffer is full, the input ends or a read fails, and returns how many bytes it put at the start
// of the buffer: those that the input had next, in its order. A read that a signal interrupted counts as one that
// failed. On an empty buffer it makes no call.
pub fn read_full<R: Read>(input: &mut R, buffer: &mut [u8]) -> usize
    ensures in_bounds { result ≤ length buffer.new }
    ensures long { result ≡ length (take result buffer.new) }
    ensures bytes { Consumes (R.remaining input.old) (R.remaining input.new) (take result buffer.new) }
{
    let mut done = 0;
    while done < buffer.len() {
        match input.read(&mut buffer[done..]) {
            Ok(0) => break,
            Ok(n) => done += n,
            Err(_) => break,
        }
    }
    done
}

// What did not come whole.
#[derive(Clone, Copy)]
pub struct Broken;

// Reads n bytes to the start of a buffer, as `read_full` does. Refuses where the buffer is shorter or fewer come.
pub fn read_whole<R: Read>(input: &mut R, buffer: &mut [u8], n: usize) -> Result<(), Broken>
    ensures in_bounds { IsOk result → n ≤ length buffer.new }
    ensures bytes { IsOk result → Consumes (R.remaining input.old) (R.remaining input.new) (take n buffer.new) }
{
    if buffer.len() < n || read_full(input, &mut buffer[0..n]) < n {
        return Err(Broken);
    }
    Ok(())
}
