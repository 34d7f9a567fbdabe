ghost use Rattle.std.specs.Prelude.{◌≡◌};
ghost use Rattle.write_answer.specs.Flat as rules;

use type_layers::Refused;

// An answer as C has it: the refusal's number, or 0; and the value, or the refusal's place.
#[repr(C)]
#[derive(Clone, Copy)]
pub struct Answer {
    pub refusal: u64,
    pub value: u64,
}

pub fn accepted(value: u64) -> Answer
    ensures { result ≡ rules.accepted value }
{
    Answer { refusal: 0, value }
}

pub fn refused(number: u64, place: u64) -> Answer
    ensures { result ≡ rules.not_accepted number place }
{
    Answer {
        refusal: number,
        value: place,
    }
}

impl From<Refused> for Answer {
    ghost from_gives = { rules.FlatRefusal };

    fn from(e: Refused) -> Answer {
        refused(e.refusal.into(), e.place)
    }
}

// A number, or why there is none.
impl From<Result<u64, Refused>> for Answer {
    ghost from_gives = { rules.FlatNumber };

    #[tactic(auto, unfolding(crate::specs::Flat::flat))]
    fn from(number: Result<u64, Refused>) -> Answer {
        match number {
            Ok(n) => accepted(n),
            Err(e) => e.into(),
        }
    }
}

// Yes is 1 and no is 0, or why there is neither.
impl From<Result<bool, Refused>> for Answer {
    ghost from_gives = { rules.FlatVerdict };

    #[tactic(auto, unfolding(crate::specs::Flat::flat))]
    fn from(verdict: Result<bool, Refused>) -> Answer {
        match verdict {
            Ok(yes) => accepted(u64::from(yes)),
            Err(e) => e.into(),
        }
    }
}
