// The call for C that writes a Goal body from slips.
ghost use Rattle.slips.specs.Writing.{Writing};

#[repr(C)]
#[derive(Clone, Copy, Debug, PartialEq, Eq)]
pub struct WrittenFigures {
    pub refusal: u32,
    pub length: u32,
}

// Writes the Goal body of slips for so many propositions into a buffer.
pub fn cabinet_goal(clauses: &[u8], propositions: u32, goal: &mut [u8]) -> WrittenFigures
    ensures { Writing clauses.now propositions goal.old result.refusal result.length goal.new }
{
    // No From: a length of any size has no 32 bits, and one that was written has few.
    match slips::goal::write_goal(goal, clauses, propositions as usize) {
        Ok(n) => WrittenFigures {
            refusal: 0,
            length: n as u32,
        },
        Err(why) => WrittenFigures {
            refusal: why.number(),
            length: 0,
        },
    }
}
