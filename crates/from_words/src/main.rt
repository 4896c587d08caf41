// A job in words on standard input, and its bytes on standard output; or its faults on standard error, and then nothing is written.
#![tactic(auto)]

use std::io::Write;

// The longest text, and one byte more by which a longer one is known.
const TEXT: usize = 262144;

const ROOM: usize = 262145;

// Writes the first n bytes of a buffer, as far as it has them.
fn write_first<W: Write>(output: &mut W, bytes: &[u8], n: usize) {
    let _ = output.write_all(&bytes[..n.min(bytes.len())]);
}

// Turns a text, and writes what it is turned into.
fn write_turned(rt: &HostRuntime, text: &[u8]) {
    let mut out = [0u8; 49152];
    let mut told = [0u8; 65536];
    match words::turn::turn(&mut out, &mut told, text) {
        Ok(n) => write_first(&mut rt.stdout(), &out, n),
        Err(faults) => write_first(&mut rt.stderr(), &told, faults.told),
    }
}

fn main(rt: HostRuntime) {
    let mut text = [0u8; ROOM];
    let n = programs::input::read_up_to(&mut rt.stdin(), &mut text);
    if TEXT < n {
        let _ = rt
            .stderr()
            .write_all(b"the text is longer than 262144 bytes\n");
        return;
    }
    write_turned(&rt, &text[0..n]);
}
