ghost use Rattle.std.specs.Prelude.{◌≡◌};
ghost use Rattle.type_layers.specs.Layers.{layers};
ghost use Rattle.relation_equals.specs.Equals as rules;
ghost use Rattle.relation_equals.specs.AsCoded as as-coded;

use type_numbers::Kind;

// The kind that counts: of a Char8, where it is a Uint8, that.
fn counted<const CHAR8_IS_UINT8: bool>(k: u64) -> u64
    ensures { result ≡ as-coded.counted_kind CHAR8_IS_UINT8 k }
{
    if CHAR8_IS_UINT8 && k == Kind::CHAR8 {
        Kind::UINT8
    } else {
        k
    }
}

// Whether two types are the same, layer by layer. The two below are its instances, each with the contract of its rule.
#[tactic(auto, using(crate::proofs::Steps::ends))]
fn same<const CHAR8_IS_UINT8: bool>(a: &[u64], b: &[u64]) -> bool
    ensures { result ≡ as-coded.same CHAR8_IS_UINT8 (layers a.now) (layers b.now) }
{
    match (a, b) {
        ([k, n, m, x @ ..], [l, p, q, y @ ..]) => {
            let same_kind = counted::<CHAR8_IS_UINT8>(*k) == counted::<CHAR8_IS_UINT8>(*l);
            same_kind & (n == p) & (m == q) && same::<CHAR8_IS_UINT8>(x, y)
        }
        ([_, _, _, ..], _) | (_, [_, _, _, ..]) => false,
        _ => true,
    }
}

// Whether two types are the same words.
#[tactic(auto, unfolding(crate::specs::AsCoded::same))]
pub fn identical(a: &[u64], b: &[u64]) -> bool
    ensures { result ≡ rules.identical (layers a.now) (layers b.now) }
{
    same::<false>(a, b)
}

// Whether two types are the same but for Char8 and Uint8.
#[tactic(auto, unfolding(crate::specs::AsCoded::same, crate::specs::Equals::equals))]
pub fn equals(a: &[u64], b: &[u64]) -> bool
    ensures { result ≡ rules.equals (layers a.now) (layers b.now) }
{
    same::<true>(a, b)
}
