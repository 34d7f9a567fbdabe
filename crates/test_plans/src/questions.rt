use type_numbers::StepKind;

const ELEMENT: u64 = StepKind::ELEMENT;

const MEMBER: u64 = StepKind::MEMBER;

const AUTODEREF: u64 = StepKind::AUTODEREF;

// The runs of asked steps, four words each; 14 has a step of no kind, and 15 ends within a step.
pub(crate) const ASKED: [&[u64]; 16] = [
    &[],
    &[ELEMENT, 7, 0, 0],
    &[ELEMENT, 7, 0, 0, ELEMENT, 8, 0, 0],
    &[MEMBER, 1, 0, 0],
    &[MEMBER, 2, 0, 0],
    &[MEMBER, 2, 0, 0, MEMBER, 2, 0, 0, MEMBER, 1, 0, 0],
    &[MEMBER, 3, 0, 0],
    &[MEMBER, 4, 0, 0],
    &[MEMBER, 8, 0, 0],
    &[MEMBER, 5, 0, 0, ELEMENT, 9, 0, 0],
    &[MEMBER, 6, 0, 0, ELEMENT, 9, 0, 0, MEMBER, 1, 0, 0],
    &[ELEMENT, 7, 0, 0, MEMBER, 1, 0, 0],
    &[ELEMENT, 7, 0, 0, MEMBER, 2, 0, 0, MEMBER, 7, 0, 0],
    &[AUTODEREF, 0, 0, 0],
    &[5, 0, 0, 0],
    &[ELEMENT, 7, 0, 0, MEMBER, 0],
];
