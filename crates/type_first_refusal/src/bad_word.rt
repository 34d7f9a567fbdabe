ghost use Rattle.std.specs.Prelude.{◌≡◌};
ghost use Rattle.type_layers.specs.Layers.{layer};
ghost use Rattle.type_checks.specs.Check.{good_name, good_number, bad_word};
ghost use Rattle.type_first_refusal.specs.AsCoded.{of_place};

use type_numbers::{Kind, Limit};

// Whether a layer of this kind and number may have this name.
fn good_name(k: u64, n: u64, m: u64) -> bool
    ensures { result ≡ good_name (layer k n m) }
{
    let named = match k {
        Kind::ARRAY_WITH_NAMED_LENGTH | Kind::STRUCT | Kind::WORD => true,
        Kind::UNRESOLVED_STRUCT_OR_WORD => m != 0,
        _ => false,
    };
    if named { n <= Limit::NAME } else { n == 0 }
}

// Whether a layer of this kind may have this number. The name is not looked at.
fn good_number(k: u64, m: u64) -> bool
    ensures { result ≡ good_number (layer k 0 m) }
{
    match k {
        Kind::ARRAY | Kind::WORD => true,
        Kind::UNRESOLVED_STRUCT_OR_WORD => m <= 1,
        _ => m == 0,
    }
}

// The first bad word of a layer, from 0: kind before name before number.
pub(crate) fn bad_word(k: u64, n: u64, m: u64) -> Option<u64>
    ensures { of_place result ≡ bad_word (layer k n m) }
{
    if k > Kind::VIEW {
        return Some(0);
    }
    if !good_name(k, n, m) {
        return Some(1);
    }
    if !good_number(k, m) {
        return Some(2);
    }
    None
}
