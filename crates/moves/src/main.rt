// The moves of One plate, a line for each: its state, action and outcome; and that there are no more.
#![tactic(auto)]

use rules::place::Move;

fn show_move(rt: &impl Print, m: Move) {
    let _ = println!(rt; "{} {} {}", m.state, m.action, m.outcome);
}

// What a call of the reader handed out.
fn show(rt: &impl Print, handed: Option<Move>) {
    match handed {
        Some(m) => show_move(rt, m),
        None => {
            let _ = println!(rt; "no more");
        }
    }
}

// Seven calls of one reader, for a job of six moves.
fn show_all(rt: &impl Print, job: &[u8]) {
    let mut r = reader::open_moves(job);
    show(rt, reader::next_move(&mut r));
    show(rt, reader::next_move(&mut r));
    show(rt, reader::next_move(&mut r));
    show(rt, reader::next_move(&mut r));
    show(rt, reader::next_move(&mut r));
    show(rt, reader::next_move(&mut r));
    show(rt, reader::next_move(&mut r));
}

fn main(rt: HostRuntime) {
    show_all(
        &rt,
        b"\x10\0\x06\0\x16\0\x04\0\x1a\0\x12\0\x2c\0\x0f\0\
          \x04\x03\x02\x03\0\0\
          \x02\0\x01\0\
          \0\0\x01\0\0\x03\x01\x01\x01\x01\x01\x02\x01\x02\0\x02\x02\0\
          \0\x01\0\x01\x01\x01\x02\x02\x02\x02\x02\x02\0\0\x01",
    );
}
