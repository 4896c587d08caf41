// Salvaging for people: a job on standard input, the salvaged one on standard output, and on standard error what was removed.
#![tactic(auto)]

ghost use Rattle.std.specs.Prelude.{true, ◌≡◌, ◌+◌, ◌*◌, ◌-◌, ◌≤◌, ◌<◌, length, take};
ghost use Rattle.io.specs.Counts.{IsPrefixLen};
ghost use Rattle.game.specs.Below.{upto, each};
ghost use Rattle.rules.specs.Bytes.{said};
ghost use Rattle.rules.specs.Keeps.{KeepsBut};
ghost use Rattle.text.specs.Puts.{Puts};
ghost use Rattle.salvage.specs.Salvage.{salvaged};
ghost use Rattle.mend.specs.Mends.{pair_line, listed_line, mended_text, Mends, Mended};

use programs::input::read_up_to;
use text::Line;

// How much of a job is taken in: more than the longest one, so that a longer one is refused.
const JOB_ROOM: usize = 49152;

// The longest job, and the longest list of pairs.
const NEW_ROOM: usize = 43576;

const PAIRS_ROOM: usize = 24576;

// The longest text: 8,192 lines of at most 30 bytes, and the last of at most 22.
const ROOM: usize = 245782;

// The line of a removed pair.
fn put_pair(line: &mut Line<'_>, state: u32, action: u32)
    ensures { Puts line.old (pair_line state action) line.new }
{
    line.put_word(b"removed: state ");
    line.put_number(state);
    line.put_word(b", action ");
    line.put_number(action);
    line.put(b'\n');
}

// The line of pair k of a list.
fn put_listed(line: &mut Line<'_>, pairs: &[u8], k: usize)
    requires { 3 * k + 2 < length pairs.now }
    ensures { Puts line.old (listed_line pairs.now k) line.new }
{
    let state = rules::bytes::word_at(pairs, 3 * k);
    let action = pairs[3 * k + 2];
    put_pair(line, u32::from(state), u32::from(action));
}

// The lines of the first n pairs of a list.
fn put_list(line: &mut Line<'_>, pairs: &[u8], n: usize)
    requires { 3 * n ≤ length pairs.now }
    ensures { Puts line.old (each (upto n) (listed_line pairs.now)) line.new }
{
    for k in 0..n {
        put_listed(line, pairs, k);
    }
}

// What is said of a job that was salvaged: the first n pairs of the list, and how many records went.
fn put_mended(line: &mut Line<'_>, pairs: &[u8], n: usize, gone: u32)
    requires { 3 * n ≤ length pairs.now }
    ensures { Puts line.old (mended_text pairs.now n gone) line.new }
{
    put_list(line, pairs, n);
    line.put_word(b"records removed: ");
    line.put_number(gone);
    line.put(b'\n');
}

// How many records went, where the salvaged job has so many bytes.
fn count_gone(job: &[u8], left: usize) -> u32
    requires keeps_but { KeepsBut true job.now }
    requires left_value { left ≡ length (salvaged job.now) }
    ensures { result ≡ (said job.now).records - (said (salvaged job.now)).records }
{
    match job::accept::read_forgiving(job) {
        Err(_) => 0,
        Ok(l) => ((job.len() - left) / l.form.record_size()) as u32,
    }
}

// Salvages the job, puts what is to be said in a line, and answers how many bytes of the buffer are the salvaged job.
fn mend(
    line: &mut Line<'_>,
    new: &mut [u8; NEW_ROOM],
    pairs: &mut [u8; PAIRS_ROOM],
    job: &[u8],
) -> usize
    ensures { Mended job.now new.new line.old line.new result }
{
    match salvage::tool::salvage(job, new, pairs) {
        Err(why) => {
            line.put_refusal(why);
            0
        }
        Ok(lengths) => {
            let gone = count_gone(job, lengths.job);
            put_mended(line, pairs, lengths.pairs / 3, gone);
            lengths.job
        }
    }
}

// How many bytes of the buffers are the salvaged job and what is said.
#[derive(Clone, Copy, Debug, PartialEq, Eq)]
struct Said {
    job: usize,
    text: usize,
}

// The same in a buffer that has room for every text.
fn mend_whole(
    text: &mut [u8; ROOM],
    new: &mut [u8; NEW_ROOM],
    pairs: &mut [u8; PAIRS_ROOM],
    job: &[u8],
) -> Said
    ensures prefix_len { IsPrefixLen result.job new.new }
    ensures prefix_len_2 { IsPrefixLen result.text text.new }
    ensures mends { Mends job.now (take result.job new.new) (take result.text text.new) }
{
    let mut line = Line { bytes: text, at: 0 };
    let job = mend(&mut line, new, pairs, job);
    Said { job, text: line.at }
}

// Writes the salvaged job, and says what was removed: what is handed over here is what the program prints.
fn print(out: &impl Print, error: &impl Print, job: &[u8], new: &[u8], text: &[u8])
    requires { Mends job.now new.now text.now }
{
    let _ = out.write_all(new);
    let _ = error.write_all(text);
}

fn main(rt: HostRuntime) {
    let mut job = [0u8; JOB_ROOM];
    let n = read_up_to(&mut rt.stdin(), &mut job);
    let mut new = [0u8; NEW_ROOM];
    let mut pairs = [0u8; PAIRS_ROOM];
    let mut text = [0u8; ROOM];
    let said = mend_whole(&mut text, &mut new, &mut pairs, &job[..n]);
    print(
        &rt.stdout(),
        &rt.stderr(),
        &job[..n],
        &new[..said.job],
        &text[..said.text],
    );
}
