ghost use Rattle.type_bounds.specs.Bounds.{IsHalved};

// A number of 128 bits.
#[derive(Clone, Copy, Debug, PartialEq, Eq)]
pub struct Halves {
    pub low: u64,
    pub high: u64,
}

impl From<u128> for Halves {
    ghost from_gives = { IsHalved };

    fn from(n: u128) -> Halves {
        Halves {
            low: (n & u128::from(u64::MAX)) as u64,
            high: (n >> 64) as u64,
        }
    }
}
