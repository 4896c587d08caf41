// The kinds of clauses, and their numbers in slips.
ghost use Rattle.std.specs.Prelude.{◌≡◌, ℕ, leb};
ghost use Rattle.slips.specs.Writing.{clause_in, clause_of, kind_number, KindOf};

// What a clause asks, in the order of the numbers of the kinds.
#[derive(Clone, Copy, Debug, PartialEq, Eq)]
pub enum Kind {
    Existence,
    Absence,
    Response,
    Precedence,
}

// A number that no kind has.
#[derive(Clone, Copy, Debug, PartialEq, Eq)]
pub struct NoKind(pub u8);

impl TryFrom<u8> for Kind {
    type Error = NoKind;

    ghost try_from_gives = { KindOf };

    fn try_from(number: u8) -> Result<Kind, NoKind> {
        match number {
            0 => Ok(Kind::Existence),
            1 => Ok(Kind::Absence),
            2 => Ok(Kind::Response),
            3 => Ok(Kind::Precedence),
            _ => Err(NoKind(number)),
        }
    }
}

impl From<Kind> for u8 {
    ghost from_gives = { λ k n. n ≡ kind_number k };

    fn from(kind: Kind) -> u8 {
        match kind {
            Kind::Existence => 0,
            Kind::Absence => 1,
            Kind::Response => 2,
            Kind::Precedence => 3,
        }
    }
}

impl Kind {
    // The kind of a number in slips. Slips with a number above 3 are refused; it reads as the last kind.
    pub fn of(number: u8) -> Kind
        ensures { (a b : ℕ) → clause_in result a b ≡ clause_of number a b }
    {
        match Kind::try_from(number) {
            Ok(kind) => kind,
            Err(_) => Kind::Precedence,
        }
    }

    // Whether a clause of the kind speaks of a second proposition.
    pub fn has_second(self) -> bool
        ensures { result ≡ leb 2 (kind_number self) }
    {
        match self {
            Kind::Existence | Kind::Absence => false,
            Kind::Response | Kind::Precedence => true,
        }
    }
}
