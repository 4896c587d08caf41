// Reading a formula in bytes, the operator before its parts: where it ends and how deep it is.
ghost use Rattle.std.specs.Prelude.{◌≡◌};
ghost use Rattle.judging.specs.Nodes.{node_of};
ghost use Rattle.judging.specs.Reading.{ReadOf, Shallow, raised, at_least};

// What a byte of a formula says: an atom, one of the operators, or nothing, which is a case as the others are, so that one match tells all.
#[derive(Clone, Copy, Debug, PartialEq, Eq)]
pub enum Node {
    Atom,
    Not,
    And,
    Next,
    Until,
    WeakNext,
    Eventually,
    Always,
    Malformed,
}

// Where a formula ends, and its depth.
#[derive(Clone, Copy, Debug, PartialEq, Eq)]
pub struct Read {
    pub end: usize,
    pub depth: usize,
}

impl Read {
    // One deeper.
    pub fn deeper(self) -> Read
        requires { Shallow self }
        ensures { result ≡ raised self }
    {
        Read {
            end: self.end,
            depth: self.depth + 1,
        }
    }

    // At least so deep.
    pub fn deep_as(self, least: usize) -> Read
        ensures { result ≡ at_least least self }
    {
        Read {
            end: self.end,
            depth: self.depth.max(least),
        }
    }
}

pub fn node_of(b: u8) -> Node
    ensures { result ≡ node_of b }
{
    if b < 6 {
        return Node::Atom;
    }
    match b {
        16 => Node::Not,
        17 => Node::And,
        18 => Node::Next,
        19 => Node::Until,
        20 => Node::WeakNext,
        21 => Node::Eventually,
        22 => Node::Always,
        _ => Node::Malformed,
    }
}

// Reads the formula that stands at a byte: each of its parts is read in the same way, with fewer nodes left.
pub fn read_formula(f: &[u8], at: usize) -> Option<Read>
    ensures { ReadOf f.now at result }
{
    if f.len() <= at {
        return None;
    }
    match node_of(f[at]) {
        Node::Atom => Some(Read {
            end: at + 1,
            depth: 0,
        }),
        Node::Not | Node::Next | Node::WeakNext => read_formula(f, at + 1),
        Node::And => {
            let first = read_formula(f, at + 1)?;
            let second = read_formula(f, first.end)?;
            Some(second.deep_as(first.depth))
        }
        Node::Until => {
            let first = read_formula(f, at + 1)?;
            let second = read_formula(f, first.end)?;
            Some(second.deep_as(first.depth).deeper())
        }
        Node::Eventually | Node::Always => Some(read_formula(f, at + 1)?.deeper()),
        Node::Malformed => None,
    }
}
