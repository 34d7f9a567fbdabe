ghost use Rattle.type_numbers.specs.Context.{Reads};

use crate::refusal::Refusal;

// A context of extern fixing, in the order of the rules and not of the Rust's enum.
#[derive(Clone, Copy, Debug, PartialEq, Eq)]
pub enum Context {
    Const,
    Parameter,
    Returned,
    Member,
}

// Any other number is no context, which is a bad request.
impl TryFrom<u64> for Context {
    type Error = Refusal;

    ghost try_from_gives = { Reads };

    fn try_from(number: u64) -> Result<Self, Refusal> {
        match number {
            0 => Ok(Context::Const),
            1 => Ok(Context::Parameter),
            2 => Ok(Context::Returned),
            3 => Ok(Context::Member),
            _ => Err(Refusal::BadRequest),
        }
    }
}
