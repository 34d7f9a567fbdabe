ghost use Rattle.type_numbers.specs.Effect.{Numbers};

// What an accepted change did.
#[derive(Clone, Copy, Debug, PartialEq, Eq)]
pub enum Effect {
    Kept,
    TypeReplaced,
    BothReplaced,
    Inserted,
    Overwritten,
}

impl From<Effect> for u64 {
    ghost from_gives = { Numbers };

    fn from(effect: Effect) -> u64 {
        effect as u64
    }
}
