// What a record is under: its id, whether that name is authoritative, and where it stands. In the Rust: `Identifier`.
#[derive(Clone, Copy)]
pub struct Identifier {
    pub id: u32,
    pub authority: bool,
    pub place: u64,
}
