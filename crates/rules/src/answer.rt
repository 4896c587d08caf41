// The answers of the calls, and the numbers that stand for them.
ghost use Rattle.std.specs.Prelude.{◌≡◌};
ghost use Rattle.rules.specs.Answers.{refusal_fault, value_number, ValueOf};

// Why a call says no: the names of the table of numbers that say no, in its order. A field or an order has the bad record's number.
#[derive(Clone, Copy, Debug, PartialEq, Eq)]
pub enum Refusal {
    Short,
    Contents,
    Counts,
    Labels,
    Moves,
    Field(u32),
    Order(u32),
    Goal,
    Room,
    Place,
    Entry,
    Outcome,
    NoClauses,
    Clause,
    Memory,
    Slips,
}

// What a place is worth, in the order of the numbers that say so.
#[derive(Clone, Copy, Debug, PartialEq, Eq, PartialOrd, Ord)]
pub enum Value {
    Losing,
    Pending,
    Winning,
}

// A number that no value has.
#[derive(Clone, Copy, Debug, PartialEq, Eq)]
pub struct NoValue(pub u8);

// What advice says of a place.
#[derive(Clone, Copy, Debug, PartialEq, Eq)]
pub struct Advice {
    pub value: Value,
    pub action: u8,
    pub number: u16,
}

impl Refusal {
    pub fn number(self) -> u32
        ensures { result ≡ (refusal_fault self).number }
    {
        match self {
            Refusal::Short => 1,
            Refusal::Contents => 2,
            Refusal::Counts => 3,
            Refusal::Labels => 4,
            Refusal::Moves => 5,
            Refusal::Field(_) => 12,
            Refusal::Order(_) => 13,
            Refusal::Goal => 6,
            Refusal::Room => 7,
            Refusal::Place => 9,
            Refusal::Entry => 10,
            Refusal::Outcome => 11,
            Refusal::NoClauses => 14,
            Refusal::Clause => 15,
            Refusal::Memory => 17,
            Refusal::Slips => 18,
        }
    }

    // The number of the bad record, or 0 where none is named.
    pub fn record(self) -> u32
        ensures { result ≡ (refusal_fault self).«record» }
    {
        match self {
            Refusal::Field(k) => k,
            Refusal::Order(k) => k,
            Refusal::Short => 0,
            Refusal::Contents => 0,
            Refusal::Counts => 0,
            Refusal::Labels => 0,
            Refusal::Moves => 0,
            Refusal::Goal => 0,
            Refusal::Room => 0,
            Refusal::Place => 0,
            Refusal::Entry => 0,
            Refusal::Outcome => 0,
            Refusal::NoClauses => 0,
            Refusal::Clause => 0,
            Refusal::Memory => 0,
            Refusal::Slips => 0,
        }
    }
}

impl Value {
    pub fn number(self) -> u8
        ensures { result ≡ value_number self }
    {
        match self {
            Value::Losing => 0,
            Value::Pending => 1,
            Value::Winning => 2,
        }
    }
}

impl From<Value> for u8 {
    ghost from_gives = { λ v n. n ≡ value_number v };

    fn from(value: Value) -> u8 {
        value.number()
    }
}

impl TryFrom<u8> for Value {
    type Error = NoValue;

    ghost try_from_gives = { ValueOf };

    fn try_from(number: u8) -> Result<Value, NoValue> {
        match number {
            0 => Ok(Value::Losing),
            1 => Ok(Value::Pending),
            2 => Ok(Value::Winning),
            _ => Err(NoValue(number)),
        }
    }
}
