// The edges of reading a job: each line of standard input names a job and says its bytes, and the answer is how it was read.
#![tactic(auto)]

mod bytes;
mod made;
mod said;

ghost use Rattle.std.specs.Prelude.{◌<◌, ◌≤◌, length};

use made::make;
use programs::input::read_up_to;
use rules::answer::Refusal;

// Why a line gives no job that is read. A line that says no job is told as well, so that no case is lost unseen.
#[derive(Clone, Copy, Debug, PartialEq, Eq)]
enum Fault {
    Refused(Refusal),
    BadLine,
}

impl From<Refusal> for Fault {
    fn from(why: Refusal) -> Fault {
        Fault::Refused(why)
    }
}

fn write(rt: &impl Print, text: &[u8]) {
    let _ = rt.write_all(text);
}

// The number, and after 12 and 13, which of those that reading gives are the ones above 11, the record.
fn say_refused(rt: &impl Print, why: Refusal) {
    let number = why.number();
    if number > 11 {
        let _ = println!(rt; " refused {} {}", number, why.record());
    } else {
        let _ = println!(rt; " refused {}", number);
    }
}

fn say(rt: &impl Print, answer: Result<(), Fault>) {
    match answer {
        Ok(()) => write(rt, b" read\n"),
        Err(Fault::Refused(why)) => say_refused(rt, why),
        Err(Fault::BadLine) => write(rt, b" bad line\n"),
    }
}

fn answer_to(words: &[u8]) -> Result<(), Fault> {
    if words.is_empty() {
        return Err(Fault::BadLine);
    }
    let mut job = [0u8; 49152];
    let n = make(&mut job, words).ok_or(Fault::BadLine)?;
    job::accept::read(&job[..n])?;
    Ok(())
}

// Past the next such byte, or the text's end.
fn past(text: &[u8], from: usize, byte: u8) -> usize
    requires { from < length text.now }
    ensures { (from < result) × (result ≤ length text.now) }
{
    match text[from..].iter().position(|&b| b == byte) {
        Some(k) => from + k + 1,
        None => text.len(),
    }
}

// A name and a colon, and then words. A line that is empty or starts with # says nothing.
fn line(rt: &impl Print, text: &[u8])
    requires { 0 < length text.now }
{
    if text[0] == b'#' || text[0] == b'\n' {
        return;
    }
    let words = past(text, 0, b':');
    write(rt, &text[0..words]);
    say(rt, answer_to(&text[words..]));
}

fn lines(rt: &impl Print, text: &[u8]) {
    let mut at: usize = 0;
    // From line to line, and no range: where a line ends is found on the way.
    while at < text.len() {
        let next = past(text, at, b'\n');
        line(rt, &text[at..next]);
        at = next;
    }
}

// Where the text has no room left, lines may have been lost.
fn main(rt: HostRuntime) {
    let mut text = [0u8; 16384];
    let n = read_up_to(&mut rt.stdin(), &mut text);
    lines(&rt, &text[..n]);
    if n == 16384 {
        say(&rt, Err(Fault::BadLine));
    }
}
