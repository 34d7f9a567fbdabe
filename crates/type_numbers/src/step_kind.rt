// A step's kind, its first word; its handle, mark and number follow. A constant and no enum, since C lends steps as words.
#[derive(Clone, Copy)]
pub struct StepKind(pub u64);

impl StepKind {
    pub const ELEMENT: u64 = 0;

    pub const MEMBER: u64 = 1;

    pub const AUTODESLICE: u64 = 2;

    pub const AUTODEREF: u64 = 3;

    pub const AUTOVIEW: u64 = 4;
}
