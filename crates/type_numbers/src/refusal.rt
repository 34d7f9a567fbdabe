ghost use Rattle.type_numbers.specs.Refusal.{Numbers};

// Why there is no answer; the names and the numbers are those of the C face.
#[derive(Clone, Copy, Debug, PartialEq, Eq)]
pub enum Refusal {
    BadCount = 1,
    BadLayer,
    BadLeaf,
    IllFormed,
    BadRequest,
    NotInExtern,
    Conflict,
    NoStepFits,
    AddressOfAddress,
    SlicePointerUnsettled,
    NoMember,
    TableNotInOrder,
    TableFull,
    OutputTooShort,
    TooManyLayers,
    BadSheet,
    SizeTooLarge,
}

impl From<Refusal> for u64 {
    ghost from_gives = { Numbers };

    fn from(refusal: Refusal) -> u64 {
        refusal as u64
    }
}
