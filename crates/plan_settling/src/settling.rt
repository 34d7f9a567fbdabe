ghost use Rattle.type_layers.specs.Layers.{layers};
ghost use Rattle.plan_settling.specs.AsCoded as rules;

use relation_coerces::coerces;
use relation_equals::identical;
use type_layers::{inner, outer};
use type_numbers::{Kind, Refusal};
use type_size_and_depth::depth;

// How a plan is settled: the line that applies, and of the last line what it comes to.
#[derive(Clone, Copy, Debug, PartialEq, Eq)]
pub enum Settling {
    // (i) The current type, without a step.
    Identical,
    // (ii) By Autoview, to the target.
    Viewed,
    // (iii) The current type, which coerces into the target.
    Coerced,
    // (iv) The current type, a SlicePointer.
    SlicePointer,
    // (v) The current type's address, which is the target.
    PointedTo,
    // (vi) The current type's address, which coerces into the target.
    AddressCoerced,
    // (vii) The current type's address.
    Addressed,
    // (vii) The current type fully dereferenced, under as many Pointers as the address depth.
    Dereferenced,
}

// The last line, (vii).
#[tactic(auto, unfolding(crate::specs::Settling::settle_otherwise))]
fn settle_otherwise(c: &[u64], n: u64) -> Result<Settling, Refusal>
    ensures { rules.Otherwise result (layers c.now) n }
{
    match n.saturating_sub(depth(c)) {
        0 if outer(c) == Kind::SLICE_POINTER => Err(Refusal::SlicePointerUnsettled),
        0 => Ok(Settling::Dereferenced),
        1 => Ok(Settling::Addressed),
        _ => Err(Refusal::AddressOfAddress),
    }
}

// Settles the current type c to the target t at the address depth n, by the first line that applies.
#[tactic(auto, using(crate::proofs::Decided::answered), unfolding(crate::specs::Settling::line_of, crate::specs::Settling::settle, crate::specs::Settling::settle_by))]
pub fn settle(c: &[u64], t: &[u64], n: u64) -> Result<Settling, Refusal>
    ensures { rules.Settles result (layers c.now) (layers t.now) n }
{
    let plainly = (n == 0) & (depth(t) == 0);
    let k = outer(c);
    let same = identical(c, t);
    // (i)
    if plainly & same {
        return Ok(Settling::Identical);
    }
    // (ii)
    if plainly & (k == Kind::VIEW) & identical(inner(c), t) {
        return Ok(Settling::Viewed);
    }
    let coercion = coerces(c, t);
    // (iii)
    if plainly & coercion.is_as_value() {
        return Ok(Settling::Coerced);
    }
    // (iv)
    if (n == 1) & (k == Kind::SLICE_POINTER) & same {
        return Ok(Settling::SlicePointer);
    }
    // (v)
    if (n > 0) & (outer(t) == Kind::POINTER) & identical(inner(t), c) {
        return Ok(Settling::PointedTo);
    }
    // (vi)
    if (n > 0) & coercion.is_by_address() {
        return Ok(Settling::AddressCoerced);
    }
    // (vii)
    settle_otherwise(c, n)
}
