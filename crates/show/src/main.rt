// A plan shown: a job in words by the name of its file, and on standard output its plan with names, or as a graph for Graphviz.
#![tactic(auto)]

ghost use Rattle.std.specs.Prelude.{◌*◌, ◌≤◌, ◌<◌, length, IfOk};
ghost use Rattle.rules.specs.Bytes.{said};
ghost use Rattle.rules.specs.Job.{places};
ghost use Rattle.job.specs.Layout.{Fit};

use drawing::reach::Moves;
use job::layout::Layout;
use lines::names::{List, Span};
use programs::files::Program;
use rules::answer::Refusal;
use telling::names::Table;
use telling::shown::Shown;
use text::Line;

// The longest text, the longest job that is written, the longest plan, and more than is told of a place.
const TEXT_ROOM: usize = 262144;

const JOB_ROOM: usize = 49152;

const PLAN_ROOM: usize = 65536;

const OUT_ROOM: usize = 16384;

// As much as cabinet-words tells of faults.
const TOLD_ROOM: usize = 65536;

// How a plan is shown: told in words, or drawn as a graph.
#[derive(Clone, Copy, Debug, PartialEq, Eq)]
enum Showing {
    Told,
    Drawn,
}

// Writes what stands in a line to standard output.
fn write_line(rt: &impl Print, line: &Line<'_>) {
    if let Some(text) = line.bytes.get(..line.at) {
        let _ = rt.write_all(text);
    }
}

// The graph's edge from place i by record k, if it is a move from there.
fn draw_move(rt: &impl Print, shown: Shown<'_>, i: usize, k: usize)
    requires fit { Fit shown.job.now shown.layout }
    requires k_lt_records { k < shown.layout.records }
{
    let mut out = [0u8; 512];
    let mut line = Line {
        bytes: &mut out,
        at: 0,
    };
    drawing::graph::put_move(&mut line, shown, i, k);
    write_line(rt, &line);
}

// The graph's edges from place i.
fn draw_moves(rt: &impl Print, shown: Shown<'_>, i: usize)
    requires { Fit shown.job.now shown.layout }
{
    let r = telling::range::of_state(shown.job, shown.layout, i / shown.layout.goals);
    for k in r.from..r.to {
        draw_move(rt, shown, i, k);
    }
}

// Place i as a node of the graph, with the edges from it.
fn draw_place(rt: &impl Print, shown: Shown<'_>, i: usize)
    requires fit { Fit shown.job.now shown.layout }
    requires job_in_bounds { 4 * places (said shown.job.now) ≤ length shown.plan.now }
{
    let mut out = [0u8; 1024];
    let mut line = Line {
        bytes: &mut out,
        at: 0,
    };
    drawing::graph::put_node(&mut line, shown, i);
    write_line(rt, &line);
    draw_moves(rt, shown, i);
}

// Place i in words.
fn tell_place(rt: &impl Print, shown: Shown<'_>, i: usize)
    requires fit { Fit shown.job.now shown.layout }
    requires job_in_bounds { 4 * places (said shown.job.now) ≤ length shown.plan.now }
{
    if shown.plan.len() / 4 <= i {
        return;
    }
    let mut out = [0u8; OUT_ROOM];
    let mut line = Line {
        bytes: &mut out,
        at: 0,
    };
    telling::told::tell_place(&mut line, shown, i);
    write_line(rt, &line);
}

impl Showing {
    // The moves by which a place is reached that is shown.
    fn moves(self) -> Moves {
        match self {
            Showing::Told => Moves::Own,
            Showing::Drawn => Moves::All,
        }
    }

    // What comes before the places: what can be said of the whole, or the beginning of the graph.
    fn begin(self, rt: &impl Print, plan: &[u8], start: usize) {
        let mut out = [0u8; 512];
        let mut line = Line {
            bytes: &mut out,
            at: 0,
        };
        match self {
            Showing::Told => {
                if start < plan.len() / 4 {
                    telling::told::put_outlook(&mut line, plan[4 * start]);
                }
            }
            Showing::Drawn => drawing::graph::put_begin(&mut line, start),
        }
        write_line(rt, &line);
    }

    // Place i.
    fn place(self, rt: &impl Print, shown: Shown<'_>, i: usize)
        requires fit { Fit shown.job.now shown.layout }
        requires job_in_bounds { 4 * places (said shown.job.now) ≤ length shown.plan.now }
    {
        match self {
            Showing::Told => tell_place(rt, shown, i),
            Showing::Drawn => draw_place(rt, shown, i),
        }
    }

    // What comes after the places.
    fn end(self, rt: &impl Print) {
        if self == Showing::Drawn {
            let _ = rt.write_all(b"}\n");
        }
    }
}

// The plan of a job, with the names of its goal states.
fn show_plan<'a>(
    rt: &impl Print,
    job: &'a [u8],
    layout: Layout,
    plan: &'a [u8],
    states: Table<'a>,
    actions: Table<'a>,
    goals: Table<'a>,
    showing: Showing,
)
    requires fit { Fit job.now layout }
    requires job_in_bounds { 4 * places (said job.now) ≤ length plan.now }
{
    let shown = Shown {
        job,
        layout,
        plan,
        states,
        actions,
        goals,
    };
    let mut queue = [0u16; drawing::reach::ROOM];
    let mut marks = [0u8; drawing::reach::ROOM];
    let n = drawing::reach::reach(
        &mut queue,
        &mut marks,
        shown.job,
        shown.layout,
        shown.plan,
        showing.moves(),
    );
    showing.begin(rt, shown.plan, usize::from(queue[0]));
    for &i in &queue[..n] {
        showing.place(rt, shown, usize::from(i));
    }
    showing.end(rt);
}

// The same with the names that the text lists, or where its goal is made of clauses, with what these have seen.
fn show_named<'a>(
    rt: &impl Print,
    text: &'a [u8],
    job: &'a [u8],
    layout: Layout,
    plan: &'a [u8],
    showing: Showing,
)
    requires fit { Fit job.now layout }
    requires job_in_bounds { 4 * places (said job.now) ≤ length plan.now }
{
    let states: List<512> = List::of(text, b"states");
    let actions: List<16> = List::of(text, b"actions");
    let goals: List<32> = List::of(text, b"goal-states");
    let (states, actions) = (Table::of(states.names()), Table::of(actions.names()));
    if 0 < goals.len {
        let goals = Table::of(goals.names());
        show_plan(rt, job, layout, plan, states, actions, goals, showing);
        return;
    }
    let mut phrases = [0u8; 8192];
    let mut spans = [Span { start: 0, end: 0 }; 32];
    seen::list(&mut phrases, &mut spans, text);
    let told = Table {
        text: &phrases,
        spans: &spans,
    };
    show_plan(rt, job, layout, plan, states, actions, told, showing);
}

// Plans a job that is read.
fn plan_job(job: &[u8], plan: &mut [u8]) -> Result<Layout, Refusal>
    ensures { IfOk result (λ l. Fit job.now l × (4 * places (said job.now) ≤ length plan.new)) }
{
    labelling::plan::plan(job, plan)?;
    job::accept::read(job)
}

// Plans a job, and shows its plan.
fn show(rt: &impl Print, err: &impl Print, text: &[u8], job: &[u8], showing: Showing) {
    let mut plan = [0u8; PLAN_ROOM];
    match plan_job(job, &mut plan) {
        Ok(l) => show_named(rt, text, job, l, &plan, showing),
        Err(_) => {
            let _ = err.write_all(b"cabinet-show: the job is refused\n");
        }
    }
}

// Turns a text into a job and shows its plan, or tells the text's faults on standard error. It has a frame of its own: where no text is read, its
// rooms take no stack.
#[inline(never)]
fn show_text(rt: &impl Print, err: &impl Print, text: &[u8], showing: Showing) {
    let mut job = [0u8; JOB_ROOM];
    let mut told = [0u8; TOLD_ROOM];
    match words::turn::turn(&mut job, &mut told, text) {
        Ok(n) => {
            if let Some(job) = job.get(..n) {
                show(rt, err, text, job, showing);
            }
        }
        Err(faults) => {
            if let Some(told) = told.get(..faults.told) {
                let _ = err.write_all(told);
            }
        }
    }
}

// Shows the job in the file that argument i names.
fn show_file<E: Print>(program: &Program<'_, E>, i: usize, showing: Showing) {
    let Some(mut file) = program.open(i) else {
        return;
    };
    let mut text = [0u8; TEXT_ROOM];
    let n = programs::input::read_up_to(&mut file, &mut text);
    match program.read_more(file, i) {
        Some(0) => show_text(program.rt, program.err, &text[..n], showing),
        Some(_) => program.say_why(i, b": a text has at most 262144 bytes\n"),
        None => {}
    }
}

// Whether argument 1 asks for a graph: a longer one, for which there is no room, does not.
fn asks_graph<E: Print>(program: &Program<'_, E>) -> bool {
    let mut word = [0u8; 16];
    let k = program.put_arg(1, &mut word);
    &word[..k] == b"--dot".as_slice()
}

fn main(rt: HostRuntime) {
    let err = rt.stderr();
    let program = Program {
        rt: &rt,
        err: &err,
        name: b"cabinet-show: ",
    };
    if program.has_arg(1) && !program.has_arg(2) {
        show_file(&program, 1, Showing::Told);
    } else if program.has_arg(2) && !program.has_arg(3) && asks_graph(&program) {
        show_file(&program, 2, Showing::Drawn);
    } else {
        let _ = err.write_all(b"usage: cabinet-show [--dot] FILE\n");
    }
}
