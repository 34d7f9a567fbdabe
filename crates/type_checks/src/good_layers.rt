ghost use Rattle.std.specs.Prelude.{◌≡◌, not, ◌&&◌};
ghost use Rattle.type_layers.specs.Layers.{layer, holds_inner};
ghost use Rattle.type_checks.specs.Check.{good_layer};

use type_layers::holds_inner;
use type_numbers::{Kind, Limit};

// Whether the three words are a layer that holds an inner type. Most have neither a name nor a number.
#[tactic(auto, using(crate::proofs::Within::holder_by))]
pub(crate) fn good_holder(k: u64, n: u64, m: u64) -> bool
    ensures { result ≡ (holds_inner k && good_layer (layer k n m)) }
{
    if (n == 0) & (m == 0) {
        return holds_inner(k);
    }
    match k {
        Kind::ARRAY => n == 0,
        Kind::ARRAY_WITH_NAMED_LENGTH => (n <= Limit::NAME) & (m == 0),
        _ => false,
    }
}

// Whether the three words are a layer that is a leaf. The kinds below the arrays have neither a name nor a number.
#[tactic(auto, using(crate::proofs::Within::leaf_by))]
pub(crate) fn good_leaf(k: u64, n: u64, m: u64) -> bool
    ensures { result ≡ (not (holds_inner k) && good_layer (layer k n m)) }
{
    if k < Kind::ARRAY {
        return (n == 0) & (m == 0);
    }
    match k {
        Kind::STRUCT => (n <= Limit::NAME) & (m == 0),
        Kind::WORD => n <= Limit::NAME,
        Kind::UNRESOLVED_STRUCT_OR_WORD => {
            ((n == 0) & (m == 0)) | ((n <= Limit::NAME) & (m == 1))
        }
        _ => false,
    }
}
