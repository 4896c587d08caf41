// The judge for people: a line with a formula's numbers and a line with a trace's on standard input, and on standard output whether it holds.
#![tactic(auto)]

ghost use Rattle.std.specs.Prelude.{suc, ◌≤◌, ◌||◌, map, ◌≡◌, length, take, drop};
ghost use Rattle.io.specs.Counts.{IsPrefixLen};
ghost use Rattle.text.specs.PutText.{PutText};
ghost use Rattle.text.specs.Puts.{Puts};
ghost use Rattle.judging.specs.Judging.{judged_refusal, judged_holds};
ghost use Rattle.judge.specs.Lines.{digit, blank, is_list, inside, value, held, ended, grown, numbers, index_of, capped};
ghost use Rattle.judge.specs.Tells.{figures_line, ToldLines, Tells, Told};

use judging::run::JudgeError;
use programs::input::read_up_to;
use text::Line;

// How much of the input is taken in: an input that fills it may go on, and is not judged by its beginning.
const INPUT_ROOM: usize = 262144;

// Room for one number more than a formula or a trace may have, so that a longer one is refused.
const NUMBERS: usize = 65;

// The longest line has 38 bytes.
const ROOM: usize = 64;

fn is_digit(c: u8) -> bool
    ensures { result ≡ digit c }
{
    48 <= c && c <= 57
}

fn is_blank(c: u8) -> bool
    ensures { result ≡ blank c }
{
    c == 32 || c == 9 || c == 13
}

// Whether a byte may stand in a line of numbers.
fn is_listed(c: u8) -> bool
    ensures { result ≡ (digit c || blank c) }
{
    is_digit(c) || is_blank(c)
}

fn is_list(text: &[u8]) -> bool
    ensures { result ≡ is_list text.now }
{
    for &c in text {
        if !is_listed(c) {
            return false;
        }
    }
    true
}

// The number that is being read with one digit more, or 255 where that is too large for a byte; a byte that is no digit ends it.
fn grow(number: Option<u8>, c: u8) -> Option<u8>
    ensures inside { inside result ≡ digit c }
    ensures value { value result ≡ capped (grown (value number) c) }
{
    if !is_digit(c) {
        return None;
    }
    let n = 10 * u32::from(number.unwrap_or(0)) + u32::from(c - 48);
    Some(n.min(255) as u8)
}

// Puts the number that is being read, if one is.
fn put_held(line: &mut Line<'_>, number: Option<u8>)
    ensures { Puts line.old (held (inside number) (value number)) line.new }
{
    if let Some(n) = number {
        line.put(n);
    }
}

// The same where a byte that is no digit ends it.
fn put_ended(line: &mut Line<'_>, number: Option<u8>, c: u8)
    ensures { Puts line.old (ended (inside number) (value number) c) line.new }
{
    if !is_digit(c) {
        put_held(line, number);
    }
}

// Puts the numbers of a text in a buffer, a byte each, as many as it has room for, and answers how many.
fn put_numbers(out: &mut [u8], text: &[u8]) -> usize
    ensures prefix_len { IsPrefixLen result out.new }
    ensures put_text { PutText out.old 0 (map capped (numbers text.now)) out.new result }
{
    let mut line = Line { bytes: out, at: 0 };
    let mut number = None;
    for &c in text {
        put_ended(&mut line, number, c);
        number = grow(number, c);
    }
    put_held(&mut line, number);
    line.at
}

// The line of what judging answers.
fn put_figures(line: &mut Line<'_>, answer: Result<bool, JudgeError>)
    ensures { Puts line.old (figures_line (judged_refusal answer) (judged_holds answer)) line.new }
{
    match answer {
        Ok(true) => line.put_word(b"holds\n"),
        Ok(false) => line.put_word(b"does not hold\n"),
        Err(why) => {
            line.put_word(b"refused ");
            line.put_number(why.number());
            line.put(b'\n');
        }
    }
}

// Of two lines: whether they are lists of numbers, and what judging answers of these.
fn tell_lines(line: &mut Line<'_>, first: &[u8], second: &[u8])
    ensures { ToldLines first.now second.now line.old line.new }
{
    if !is_list(first) {
        line.put_word(b"the first line is no list of numbers\n");
        return;
    }
    if !is_list(second) {
        line.put_word(b"the second line is no list of numbers\n");
        return;
    }
    let mut formula = [0u8; NUMBERS];
    let n = put_numbers(&mut formula, first);
    let mut trace = [0u8; NUMBERS];
    let m = put_numbers(&mut trace, second);
    let answer = judging::run::judge_run(&formula[..n], &trace[..m]);
    put_figures(line, answer);
}

// Where the first line ends: at its line feed, or where the text does.
fn line_end(text: &[u8]) -> usize
    ensures prefix_len { IsPrefixLen result text.now }
    ensures value { result ≡ index_of 10 text.now }
{
    for i in 0..text.len() {
        if text[i] == b'\n' {
            return i;
        }
    }
    text.len()
}

// Where the line after one that ends there begins.
fn line_after(text: &[u8], end: usize) -> usize
    requires { end ≤ length text.now }
    ensures upper_bound { result ≤ length text.now }
    ensures text_value { drop result text.now ≡ drop (suc end) text.now }
{
    if end < text.len() {
        return end + 1;
    }
    end
}

// Puts what is to be printed of the input in a line.
fn tell(line: &mut Line<'_>, input: &[u8])
    ensures { Told input.now line.old line.new }
{
    if INPUT_ROOM <= input.len() {
        line.put_word(b"the input is too long\n");
        return;
    }
    let end = line_end(input);
    let at = line_after(input, end);
    let rest = &input[at..];
    let stop = line_end(rest);
    let more = line_after(rest, stop);
    if more < rest.len() {
        line.put_word(b"there are more than two lines\n");
        return;
    }
    tell_lines(line, &input[..end], &rest[..stop]);
}

// The same in a buffer that has room for every line: its first bytes, as many as are answered, are what is to be printed.
fn tell_whole(out: &mut [u8; ROOM], input: &[u8]) -> usize
    ensures prefix_len { IsPrefixLen result out.new }
    ensures tells { Tells input.now (take result out.new) }
{
    let mut line = Line { bytes: out, at: 0 };
    tell(&mut line, input);
    line.at
}

// Writes the line that is to be printed of the input: what is handed over here is what the program prints.
fn print(rt: &impl Print, input: &[u8], text: &[u8])
    requires { Tells input.now text.now }
{
    let _ = rt.write_all(text);
}

fn main(rt: HostRuntime) {
    let mut input = [0u8; INPUT_ROOM];
    let n = read_up_to(&mut rt.stdin(), &mut input);
    let mut out = [0u8; ROOM];
    let k = tell_whole(&mut out, &input[..n]);
    print(&rt, &input[..n], &out[..k]);
}
