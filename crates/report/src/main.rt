// The month in totals: a bundle of jobs on standard input, and 14 lines of figures on standard output, or "refused 23" alone.
#![tactic(auto)]

ghost use Rattle.std.specs.Prelude.{◌+◌, ◌≤◌, min, true, ◌≡◌, length, take};
ghost use Rattle.io.specs.Counts.{IsPrefixLen};
ghost use Rattle.text.specs.Puts.{Puts};
ghost use Rattle.totals.specs.Classes.{entry_room};
ghost use Rattle.totals.specs.Bundle.{entries, contents_fit};
ghost use Rattle.report.specs.Report.{figure_line, count_lines, largest_line, report};
ghost use Rattle.report.specs.Read.{CameOf, MonthOf, MonthGathered, told, Told};

use programs::input::read_up_to;
use std::io::Read;
use text::Line;
use totals::bundle::CONTENTS_ROOM;
use totals::class::{Class, ENTRY_ROOM};
use totals::tally::{Largest, Totals};

// The longest text: 11 lines of at most 3 bytes, 2 of at most 8, and one of at most 9.
const ROOM: usize = 64;

// A line with one figure.
fn put_figure(line: &mut Line<'_>, n: u32)
    ensures { Puts line.old (figure_line n) line.new }
{
    line.put_number(n);
    line.put(b'\n');
}

// The lines of the counts.
fn put_counts(line: &mut Line<'_>, counts: [u32; 11])
    ensures { Puts line.old (count_lines counts 11) line.new }
{
    for &count in &counts {
        put_figure(line, count);
    }
}

// The last line: the largest winning starting number and the first job that has it, or "-" where none wins.
fn put_largest(line: &mut Line<'_>, largest: Option<Largest>)
    ensures { Puts line.old (largest_line largest) line.new }
{
    match largest {
        None => line.put_word(b"-\n"),
        Some(most) => {
            line.put_number(u32::from(most.number));
            line.put(b' ');
            put_figure(line, most.job);
        }
    }
}

// The whole report.
fn put_report(line: &mut Line<'_>, t: Totals)
    ensures { Puts line.old (report t) line.new }
{
    put_counts(line, t.counts);
    put_figure(line, t.winning_sum);
    put_figure(line, t.pending_sum);
    put_largest(line, t.largest);
}

// What came of a bundle: how many of its bytes came, and where it is one, the totals of its entries.
#[derive(Clone, Copy, Debug, PartialEq, Eq)]
struct Month {
    came: u64,
    totals: Option<Totals>,
}

// What is to be printed of it: the report, or 23 and nothing else.
fn put_month(line: &mut Line<'_>, month: Month)
    ensures { Puts line.old (told month) line.new }
{
    match month.totals {
        Some(t) => put_report(line, t),
        None => line.put_word(b"refused 23\n"),
    }
}

// The same in a buffer that has room for the totals of 64 jobs: its first bytes, as many as are answered, are what is to be printed.
fn tell(out: &mut [u8; ROOM], month: Month) -> usize
    requires { MonthGathered month }
    ensures prefix_len { IsPrefixLen result out.new }
    ensures out_after { take result out.new ≡ told month }
{
    let mut line = Line { bytes: out, at: 0 };
    put_month(&mut line, month);
    line.at
}

// Writes the text that is to be printed where these contents came, and so many bytes in all: what is handed over here is what the program prints.
fn print(rt: &impl Print, contents: &[u8], came: u64, text: &[u8])
    requires { Told contents.now came text.now }
{
    let _ = rt.write_all(text);
}

// How much of an entry of this size is read at once.
fn portion(size: u64) -> usize
    ensures { result ≡ min size entry_room }
{
    size.min(ENTRY_ROOM as u64) as usize
}

// Reads bytes of the input into a part of the buffer, and answers how many came.
fn read_between<R: Read>(input: &mut R, b: &mut [u8], from: usize, to: usize) -> usize
    requires from_le_to { from ≤ to }
    requires to_in_bounds { to ≤ length b.old }
    ensures { from + result ≤ to }
{
    read_up_to(input, &mut b[from..to])
}

// Reads past so many bytes, and answers how many came. Of none the buffer stays as it is.
fn read_past<R: Read>(input: &mut R, job: &mut [u8], size: u64) -> u64
    requires { entry_room ≤ length job.old }
    ensures upper_bound { result ≤ size }
    ensures job_unchanged { size ≡ 0 → job.new ≡ job.old }
{
    let mut past: u64 = 0;
    // over what a read brought, not over an index
    while past < size {
        let n = portion(size - past);
        let came = read_between(input, job, 0, n);
        past += came as u64;
        if came < n {
            return past;
        }
    }
    past
}

// Reads an entry of this size: its first bytes are kept, as many as there is room for. Of a longer one the others are read past, over these,
// since its bytes do not count. What comes of it is its class, or how many of its bytes came before the input ended.
fn take_entry<R: Read>(input: &mut R, job: &mut [u8], size: u64) -> Result<Class, u64>
    requires { entry_room ≤ length job.old }
    ensures { CameOf job.new size result }
{
    let n = portion(size);
    let first = read_between(input, job, 0, n);
    if first < n {
        return Err(first as u64);
    }
    let more = size - n as u64;
    let past = read_past(input, job, more);
    if past < more {
        return Err(n as u64 + past);
    }
    Ok(totals::class::class_of(&job[..n], size))
}

// Asks for one byte after the last entry, and answers how many came.
fn read_more<R: Read>(input: &mut R) -> u64
    ensures { result ≤ 1 }
{
    let mut more = [0u8; 1];
    read_between(input, &mut more, 0, 1) as u64
}

// Reads the n entries that the contents tell of, one after another, and looks whether the input ends there.
fn take_entries<R: Read>(input: &mut R, job: &mut [u8], contents: &[u8], n: usize) -> Month
    requires entry_room_in_bounds { entry_room ≤ length job.old }
    requires contents_value { contents_fit contents.now ≡ true }
    requires n_value { n ≡ entries contents.now }
    ensures { MonthOf contents.now result }
{
    let mut t = totals::tally::none();
    let mut at = contents.len() as u64;
    for i in 0..n {
        let size = totals::bundle::size_of(contents, i);
        match take_entry(input, job, size) {
            Err(k) => {
                return Month {
                    came: at + k,
                    totals: None,
                };
            }
            Ok(class) => {
                t = totals::tally::add(t, class);
                at += size;
            }
        }
    }
    let more = read_more(input);
    Month {
        came: at + more,
        totals: (more == 0).then_some(t),
    }
}

// Of contents that do not fit no entry is read.
fn take_month<R: Read>(input: &mut R, job: &mut [u8], contents: &[u8]) -> Month
    requires { entry_room ≤ length job.old }
    ensures { MonthOf contents.now result }
{
    if totals::bundle::contents_fit(contents) {
        return take_entries(input, job, contents, (contents.len() - 2) / 8);
    }
    Month {
        came: contents.len() as u64,
        totals: None,
    }
}

// Reads the contents, two bytes and what they count, and answers how many bytes came.
fn read_contents<R: Read>(input: &mut R, contents: &mut [u8]) -> usize
    requires { 514 ≤ length contents.old }
    ensures { result ≤ 514 }
{
    let first = read_between(input, contents, 0, 2);
    if first < 2 {
        return first;
    }
    let n = totals::bundle::entries_counted(&contents[..first]);
    2 + read_between(input, contents, 2, 2 + 8 * n)
}

fn main(rt: HostRuntime) {
    let mut input = rt.stdin();
    let mut contents = [0u8; CONTENTS_ROOM];
    let k = read_contents(&mut input, &mut contents);
    let mut job = [0u8; ENTRY_ROOM];
    let month = take_month(&mut input, &mut job, &contents[..k]);
    let came = month.came;
    let mut out = [0u8; ROOM];
    let n = tell(&mut out, month);
    print(&rt, &contents[..k], came, &out[..n]);
}
