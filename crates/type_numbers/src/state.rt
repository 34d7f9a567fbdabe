// The state of a record. A constant and no enum: C lends records, and one with any other number is out of order.
#[derive(Clone, Copy)]
pub struct State(pub u64);

impl State {
    pub const FREE: u64 = 0;

    pub const TYPED: u64 = 1;

    pub const POISONED: u64 = 2;
}
