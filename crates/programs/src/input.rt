// Input read into a buffer, as much as comes.
ghost use Rattle.io.specs.Counts.{IsPrefixLen};

use std::io::Read;

/// Reads until the buffer is full, the input ends or a read fails, and answers how many bytes stand at its beginning.
pub fn read_up_to<R: Read>(input: &mut R, buffer: &mut [u8]) -> usize
    ensures { IsPrefixLen result buffer.new }
{
    let mut done: usize = 0;
    // over what a read brought, not over an index
    while done < buffer.len() {
        let Ok(n) = input.read(&mut buffer[done..]) else {
            return done;
        };
        if n == 0 {
            return done;
        }
        done += n;
    }
    done
}
