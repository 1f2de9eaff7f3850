// Input, read to its end.
ghost use Rattle.std.specs.Prelude.{◌<◌, length};
ghost use Rattle.input_reader.specs.Input.{ReadBehind, Reads};

use std::io;
use std::io::Read;

// One read, behind the bytes that were read before it.
fn read_behind<R: Read>(input: &mut R, done: usize, buf: &mut [u8]) -> io::Result<usize>
    requires { done < length buf.old }
    ensures { ReadBehind done buf.old result buf.new }
{
    input.read(&mut buf[done..])
}

// Fills a buffer from its front until it is full, the input ends or a read fails: how many bytes were read.
// A failure is not the end: what was read before it is no whole job.
pub fn read_to_end<R: Read>(input: &mut R, buf: &mut [u8]) -> io::Result<usize>
    ensures { Reads 0 buf.old result buf.new }
{
    let mut done: usize = 0;
    // How far a turn goes is what the read answers.
    while done < buf.len() {
        match read_behind(input, done, buf) {
            Ok(0) => return Ok(done),
            Ok(more) => done += more,
            // No `?`: two must-fail edits change what a failed read leads to, failed_read_as_empty and failed_read_as_the_end.
            Err(error) => return Err(error),
        }
    }
    Ok(done)
}
