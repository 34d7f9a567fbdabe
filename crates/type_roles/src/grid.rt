ghost use Rattle.std.specs.Prelude.{◌≡◌, ◌<◌, get_or, map};
ghost use Rattle.type_numbers.specs.Kind as kind;
ghost use Rattle.type_layers.specs.Layers.{layers};
ghost use Rattle.type_wellformed.specs.WellFormed.{well_formed};
ghost use Rattle.type_roles.specs.Grid as rules;
ghost use Rattle.type_roles.specs.AsCoded.{value_of};

use crate::role::Role;
use type_wellformed::is_wellformed;

// The three values of an entry.
#[derive(Clone, Copy)]
pub(crate) enum Entry {
    Refused,
    Allowed,
    AllowedWhenWellFormed,
}

const R: Entry = Entry::Refused;

const A: Entry = Entry::Allowed;

const W: Entry = Entry::AllowedWhenWellFormed;

// The roles by the outer kinds, which stand in the order of their numbers; some names are cut.
#[rattlefmt::skip]
const GRID: [[Entry; 25]; 7] = [
    // Void I8 I16 I32 I64 I128 U8 U16 U32 U64 U128 Usize Char8 Bool Array Named Slice SlPtr Endless Alike Struct Word Unres Ptr View
    [  R,   A, A,  A,  A,  A,   A, A,  A,  A,  A,   A,    A,    A,   A,    A,    R,    R,    R,      R,    A,     A,   A,    A,  R], // can_be_sized
    [  R,   W, W,  W,  W,  W,   W, W,  W,  W,  W,   W,    W,    W,   W,    W,    R,    R,    R,      R,    W,     W,   W,    W,  R], // can_be_struct_member
    [  R,   W, W,  W,  W,  W,   W, W,  W,  W,  W,   W,    W,    W,   W,    W,    R,    R,    R,      R,    W,     W,   W,    W,  R], // can_be_word_member
    [  R,   W, W,  W,  W,  W,   W, W,  W,  W,  W,   W,    W,    W,   W,    W,    R,    R,    R,      R,    W,     W,   W,    W,  W], // can_be_constant
    [  R,   W, W,  W,  W,  W,   W, W,  W,  W,  W,   W,    W,    W,   W,    W,    W,    R,    R,      R,    W,     W,   W,    W,  R], // can_be_variable
    [  R,   W, W,  W,  W,  W,   W, W,  W,  W,  W,   W,    W,    W,   R,    R,    W,    W,    R,      R,    R,     W,   W,    W,  W], // can_be_parameter
    [  W,   W, W,  W,  W,  W,   W, W,  W,  W,  W,   W,    W,    W,   R,    R,    R,    R,    R,      R,    R,     W,   R,    W,  R], // can_be_returned
];

// The whole grid. Its contract is the one test of it: all its entries are what the rules say.
fn grid() -> [[Entry; 25]; 7]
    ensures { map (map value_of) result ≡ rules.grid }
{
    GRID
}

fn under(k: u64, row: [Entry; 25]) -> Entry
    requires { k < kind.none }
    ensures { value_of result ≡ get_or (map value_of row) k 0 }
{
    row[k as usize]
}

// The entry of a role under a kind. A constant is written to the stack where it is used. So that this is one row each time,
// each arm names its own, and what nobody reads the compiler drops; with the role as an index it would be the whole grid.
#[tactic(auto, using(crate::proofs::Told::looked_up))]
pub(crate) fn entry_of(role: Role, k: u64) -> Entry
    requires { k < kind.none }
    ensures { value_of result ≡ rules.entry_of role k }
{
    let rows = grid();
    match role {
        Role::Sized => under(k, rows[0]),
        Role::StructMember => under(k, rows[1]),
        Role::WordMember => under(k, rows[2]),
        Role::Constant => under(k, rows[3]),
        Role::Variable => under(k, rows[4]),
        Role::Parameter => under(k, rows[5]),
        Role::Returned => under(k, rows[6]),
    }
}

// What an entry says of a type; whether that is well formed is asked only where the entry does not tell.
pub(crate) fn says(entry: Entry, a: &[u64]) -> bool
    ensures { result ≡ rules.says (value_of entry) (well_formed (layers a.now)) }
{
    match entry {
        Entry::Refused => false,
        Entry::Allowed => true,
        Entry::AllowedWhenWellFormed => is_wellformed(a),
    }
}
