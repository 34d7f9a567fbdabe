ghost use Rattle.std.specs.Prelude.{◌≡◌};
ghost use Rattle.symbol_operations.specs.Operations as rules;
ghost use Rattle.symbol_operations.specs.AsCoded as as-coded;

// What is done to a table under a name.
#[derive(Clone, Copy, Debug, PartialEq, Eq)]
pub enum Operation {
    PutNothing,
    PutPoison,
    PutType,
    ForwardPoison,
    ForwardType,
}

// An operation that makes or changes a record.
#[derive(Clone, Copy, Debug, PartialEq, Eq)]
pub enum Act {
    PutPoison,
    PutType,
    ForwardPoison,
    ForwardType,
}

// What is put.
#[derive(Clone, Copy, Debug, PartialEq, Eq)]
pub enum Offer {
    Nothing,
    Poison,
    Type,
}

// What is declared forward.
#[derive(Clone, Copy, Debug, PartialEq, Eq)]
pub enum Declared {
    Poison,
    Type,
}

impl From<Offer> for Operation {
    ghost from_gives = { as-coded.Puts };

    fn from(offer: Offer) -> Operation {
        match offer {
            Offer::Nothing => Operation::PutNothing,
            Offer::Poison => Operation::PutPoison,
            Offer::Type => Operation::PutType,
        }
    }
}

impl From<Declared> for Operation {
    ghost from_gives = { as-coded.Declares };

    fn from(declared: Declared) -> Operation {
        match declared {
            Declared::Poison => Operation::ForwardPoison,
            Declared::Type => Operation::ForwardType,
        }
    }
}

impl Operation {
    // The act that it asks for, if any.
    pub fn act(self) -> Option<Act>
        ensures { as-coded.of_asked result ≡ as-coded.of_operation self }
    {
        match self {
            Operation::PutNothing => None,
            Operation::PutPoison => Some(Act::PutPoison),
            Operation::PutType => Some(Act::PutType),
            Operation::ForwardPoison => Some(Act::ForwardPoison),
            Operation::ForwardType => Some(Act::ForwardType),
        }
    }
}

impl Act {
    pub fn offers_type(self) -> bool
        ensures { result ≡ rules.offers_type (as-coded.of_act self) }
    {
        matches!(self, Act::PutType | Act::ForwardType)
    }
}
