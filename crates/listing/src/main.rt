// The listing: a job on standard input, and what its plan says of each place on standard output.
#![tactic(auto)]

ghost use Rattle.std.specs.Prelude.{◌++◌, take, replicate};
ghost use Rattle.io.specs.Counts.{IsPrefixLen};
ghost use Rattle.game.specs.Below.{upto, each};
ghost use Rattle.text.specs.Puts.{Puts};
ghost use Rattle.listing.specs.Listing.{lines, Prints};
ghost use Rattle.listing.specs.Told.{valued_line, started_line, advised_line, Printed};

use cabinet::place::Place;
use programs::input::read_up_to;
use text::Line;

// The longest text: 16,384 lines of at most 24 bytes, and the first of at most 21.
const ROOM: usize = 393237;

// The first line, of the starting place p.
fn list_first(line: &mut Line<'_>, job: &[u8], plan: &[u8], p: Place)
    ensures { Puts line.old (valued_line job.now plan.now p.state p.goal) line.new }
{
    match p.advice(job, plan) {
        Err(why) => line.put_refusal(why),
        Ok(advice) => line.put_start(p.state, p.goal, advice.value),
    }
}

// The first line, wherever the job starts.
fn list_start(line: &mut Line<'_>, job: &[u8], plan: &[u8])
    ensures { Puts line.old (started_line job.now plan.now) line.new }
{
    match (Place { state: 0, goal: 0 }).start(job) {
        Err(why) => line.put_refusal(why),
        Ok(moved) => list_first(line, job, plan, moved.place),
    }
}

// The line of a place.
fn list_place(line: &mut Line<'_>, job: &[u8], plan: &[u8], p: Place)
    ensures { Puts line.old (advised_line job.now plan.now p.state p.goal) line.new }
{
    match p.advice(job, plan) {
        Err(why) => line.put_refusal(why),
        Ok(a) => line.put_entry(p.state, p.goal, a.value, a.action, a.number),
    }
}

// The places of one state.
fn list_state(line: &mut Line<'_>, job: &[u8], plan: &[u8], state: u32, goals: u32)
    ensures { Puts line.old (each (upto goals) (advised_line job.now plan.now state)) line.new }
{
    for goal in 0..goals {
        list_place(line, job, plan, Place { state, goal });
    }
}

// Every place, state by state.
fn list_states(line: &mut Line<'_>, job: &[u8], plan: &[u8], states: u32, goals: u32)
    ensures { Puts line.old (lines (advised_line job.now plan.now) states goals) line.new }
{
    for state in 0..states {
        list_state(line, job, plan, state, goals);
    }
}

// The first line, and every place.
fn list_planned(line: &mut Line<'_>, job: &[u8], plan: &[u8], states: u32, goals: u32)
    ensures { Puts line.old
        (started_line job.now plan.now
        ++ lines (advised_line job.now plan.now) states goals)
        line.new }
{
    list_start(line, job, plan);
    list_states(line, job, plan, states, goals);
}

// Plans the job, and puts what is to be printed in a line.
fn list(line: &mut Line<'_>, job: &[u8], plan: &mut [u8])
    ensures { Printed job.now plan.old line.old line.new }
{
    match labelling::plan::plan(job, plan) {
        Err(why) => line.put_refusal(why),
        Ok(()) => match job::accept::read(job) {
            Err(why) => line.put_refusal(why),
            Ok(l) => list_planned(line, job, plan, l.states as u32, l.goals as u32),
        },
    }
}

// The same in a buffer that has room for every text: its first bytes, as many as are answered, are what is to be printed.
fn list_whole(out: &mut [u8; ROOM], job: &[u8], plan: &mut [u8]) -> usize
    ensures prefix_len { IsPrefixLen result out.new }
    ensures prints { Prints job.now plan.old (take result out.new) }
{
    let mut line = Line { bytes: out, at: 0 };
    list(&mut line, job, plan);
    line.at
}

// Writes the text that is to be printed of the job: what is handed over here is what the listing prints.
fn print(rt: &impl Print, job: &[u8], text: &[u8])
    requires { Prints job.now (replicate 65536 0) text.now }
{
    let _ = rt.write_all(text);
}

fn main(rt: HostRuntime) {
    let mut job = [0u8; 49152];
    let n = read_up_to(&mut rt.stdin(), &mut job);
    let mut plan = [0u8; 65536];
    let mut out = [0u8; ROOM];
    let k = list_whole(&mut out, &job[..n], &mut plan);
    print(&rt, &job[..n], &out[..k]);
}
