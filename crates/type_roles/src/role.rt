// What a type can be used as.
#[derive(Clone, Copy, Debug, PartialEq, Eq)]
pub enum Role {
    Sized,
    StructMember,
    WordMember,
    Constant,
    Variable,
    Parameter,
    Returned,
}
