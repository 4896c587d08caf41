// The check for people: a job and a plan by the names of their files, and on standard output whether the plan is right.
#![tactic(auto)]

ghost use Rattle.std.specs.Prelude.{take, IfSome};
ghost use Rattle.io.specs.Counts.{IsPrefixLen};
ghost use Rattle.rules.specs.Fault.{only};
ghost use Rattle.job.specs.Layout.{Fit};
ghost use Rattle.text.specs.Puts.{Puts};
ghost use Rattle.checking.specs.Checking.{Checking};
ghost use Rattle.compare.specs.Tells.{said_value, said_text, wrong_line, Tells, Told};

use checking::check::{CheckError, PLAN_ROOM};
use game::entry::Entry;
use job::layout::Layout;
use programs::files::Program;
use programs::input::read_up_to;
use rules::answer::Value;
use text::Line;

// How much of a job's file is taken in: more than the longest job, so that a longer one is refused.
const JOB_ROOM: usize = 49152;

// The longest line has at most 60 bytes.
const ROOM: usize = 64;

// The value of an entry: its word, or the figure where it is none of the three.
fn put_said_value(line: &mut Line<'_>, value: u8)
    ensures { Puts line.old (said_value value) line.new }
{
    match Value::try_from(value) {
        Ok(known) => line.put_value(known),
        Err(_) => line.put_number(u32::from(value)),
    }
}

// What an entry says.
fn put_said(line: &mut Line<'_>, e: Entry)
    ensures { Puts line.old (said_text e) line.new }
{
    put_said_value(line, e.value);
    line.put(b' ');
    line.put_action(e.action);
    line.put(b' ');
    line.put_number(u32::from(e.number));
}

// The line of a wrong entry.
fn put_wrong(line: &mut Line<'_>, state: u32, goal: u32, said: Entry, right: Entry)
    ensures { Puts line.old (wrong_line state goal said right) line.new }
{
    line.put_word(b"wrong ");
    line.put_number(state);
    line.put(b' ');
    line.put_number(goal);
    line.put_word(b" says ");
    put_said(line, said);
    line.put_word(b" right ");
    put_said(line, right);
    line.put(b'\n');
}

// Of a job that was read, and the place of its plan's lowest wrong entry.
fn tell_wrong(line: &mut Line<'_>, job: &[u8], l: Layout, plan: &[u8], state: u32, goal: u32)
    requires fit { Fit job.now l }
    requires checking { Checking job.now plan.now (only 16) state goal }
    ensures { Told job.now plan.now line.old line.new }
{
    let i = (state as usize) * l.goals + (goal as usize);
    let mut own = [0u8; PLAN_ROOM];
    match labelling::plan::plan(job, &mut own) {
        Err(why) => line.put_refusal(why),
        Ok(()) => {
            let said = rules::entry::read_entry(plan, i);
            let right = rules::entry::read_entry(&own, i);
            put_wrong(line, state, goal, said, right);
        }
    }
}

// Checks the plan, and puts what is to be printed in a line.
fn tell(line: &mut Line<'_>, job: &[u8], plan: &[u8])
    ensures { Told job.now plan.now line.old line.new }
{
    match checking::check::check(job, plan) {
        Ok(()) => line.put_word(b"right\n"),
        Err(CheckError::Refused(why)) => line.put_refusal(why),
        Err(CheckError::Wrong { state, goal }) => match job::accept::read(job) {
            Err(why) => line.put_refusal(why),
            Ok(l) => tell_wrong(line, job, l, plan, state, goal),
        },
    }
}

// The same in a buffer that has room for every line: its first bytes, as many as are answered, are what is to be printed. It has a frame of its own:
// where no files are read, the room of the check takes no stack.
#[inline(never)]
fn tell_whole(out: &mut [u8; ROOM], job: &[u8], plan: &[u8]) -> usize
    ensures prefix_len { IsPrefixLen result out.new }
    ensures tells { Tells job.now plan.now (take result out.new) }
{
    let mut line = Line { bytes: out, at: 0 };
    tell(&mut line, job, plan);
    line.at
}

// Writes the line that is to be printed of the job and the plan: what is handed over here is what the program prints.
fn print(rt: &impl Print, job: &[u8], plan: &[u8], text: &[u8])
    requires { Tells job.now plan.now text.now }
{
    let _ = rt.write_all(text);
}

// Reads the file that argument i names into the buffer, and answers how many bytes stand at its beginning, or says why it can not.
fn read_named<E: Print>(program: &Program<'_, E>, i: usize, buffer: &mut [u8]) -> Option<usize>
    ensures { IfSome result (λ n. IsPrefixLen n buffer.new) }
{
    let mut file = program.open(i)?;
    let n = read_up_to(&mut file, buffer);
    program.read_more(file, i)?;
    Some(n)
}

fn main(rt: HostRuntime) {
    let err = rt.stderr();
    let program = Program {
        rt: &rt,
        err: &err,
        name: b"cabinet-check: ",
    };
    if !program.has_arg(2) || program.has_arg(3) {
        let _ = err.write_all(b"usage: cabinet-check JOB PLAN\n");
        return;
    }
    let mut job = [0u8; JOB_ROOM];
    let Some(n) = read_named(&program, 1, &mut job) else {
        return;
    };
    let mut plan = [0u8; PLAN_ROOM];
    let Some(m) = read_named(&program, 2, &mut plan) else {
        return;
    };
    let mut out = [0u8; ROOM];
    let k = tell_whole(&mut out, &job[..n], &plan[..m]);
    print(&rt, &job[..n], &plan[..m], &out[..k]);
}
