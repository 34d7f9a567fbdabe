// What is asked of a plan: the asked steps from the known type, and the target with its address depth, in so many rounds.
#[derive(Clone, Copy)]
pub struct Question<'q> {
    pub known: &'q [u64],
    pub asked: &'q [u64],
    pub target: &'q [u64],
    pub level: u8,
    pub rounds: u64,
}
