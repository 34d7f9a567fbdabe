// One record of a symbol table. Slot k's type stands in the store from word 48 k on.
#[repr(C)]
#[derive(Clone, Copy)]
pub struct Symbol {
    pub id: u32,
    pub authority: bool,
    pub place: u64,
    // one of `State`
    pub state: u64,
    // of the stored type
    pub layers: u64,
    // of the poison
    pub mark: u64,
}
