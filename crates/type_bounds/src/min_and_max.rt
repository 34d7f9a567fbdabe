ghost use Rattle.std.specs.Prelude.{◌≡◌};
ghost use Rattle.std.specs.Int.{w128, cast_unsigned};
ghost use Rattle.type_layers.specs.Answer.{of_result};
ghost use Rattle.type_bounds.specs.Bounds as rules;
ghost use Rattle.type_bounds.specs.Bounds.{lowest_answer, highest_answer};

use crate::bound::Halves;
use type_first_refusal::check_type;
use type_layers::{Refused, outer};
use type_numbers::Kind;

// The lowest value of a kind; of one that has none 0.
fn lowest_of(k: u64) -> i128
    ensures { cast_unsigned w128 result ≡ rules.lowest_of k }
{
    match k {
        Kind::INT8 => i8::MIN as i128,
        Kind::INT16 => i16::MIN as i128,
        Kind::INT32 => i32::MIN as i128,
        Kind::INT64 => i64::MIN as i128,
        Kind::INT128 => i128::MIN,
        _ => 0,
    }
}

// The highest value of a kind; of one that has none 0.
fn highest_of(k: u64) -> u128
    ensures { result ≡ rules.highest_of k }
{
    match k {
        Kind::INT8 => i8::MAX as u128,
        Kind::INT16 => i16::MAX as u128,
        Kind::INT32 => i32::MAX as u128,
        Kind::INT64 => i64::MAX as u128,
        Kind::INT128 => i128::MAX as u128,
        Kind::UINT8 | Kind::CHAR8 => u8::MAX as u128,
        Kind::UINT16 => u16::MAX as u128,
        Kind::UINT32 => u32::MAX as u128,
        Kind::UINT64 | Kind::USIZE | Kind::POINTER | Kind::VIEW => u64::MAX as u128,
        Kind::UINT128 => u128::MAX,
        _ => 0,
    }
}

// The lowest value, for any words.
#[tactic(auto, unfolding(crate::specs::Bounds::lowest_answer, crate::specs::Bounds::lowest))]
pub fn min_i128(a: &[u64]) -> Result<Halves, Refused>
    ensures { of_result result ≡ lowest_answer a.now }
{
    check_type(a)?;
    Ok(Halves::from(lowest_of(outer(a)).cast_unsigned()))
}

// The highest value, for any words.
#[tactic(auto, unfolding(crate::specs::Bounds::highest_answer, crate::specs::Bounds::highest))]
pub fn max_u128(a: &[u64]) -> Result<Halves, Refused>
    ensures { of_result result ≡ highest_answer a.now }
{
    check_type(a)?;
    Ok(Halves::from(highest_of(outer(a))))
}
