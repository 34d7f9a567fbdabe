ghost use Rattle.type_layers.specs.Answer.{IsUnplaced};

use type_numbers::Refusal;

// Why words, a table or numbers are refused, and where: the error of every answer.
#[derive(Clone, Copy, Debug, PartialEq, Eq)]
pub struct Refused {
    pub refusal: Refusal,
    pub place: u64,
}

// Most refusals have no place, which is told as 0.
impl From<Refusal> for Refused {
    ghost from_gives = { IsUnplaced };

    fn from(refusal: Refusal) -> Refused {
        Refused { refusal, place: 0 }
    }
}
