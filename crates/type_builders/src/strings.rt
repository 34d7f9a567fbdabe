ghost use Rattle.std.specs.Prelude.{◌≡◌};
ghost use Rattle.type_layers.specs.Layers.{spelled};
ghost use Rattle.type_builders.specs.Strings.{string_literal, string_slice};

use crate::layer::Layer;
use crate::layer_pair::two_layers;
use type_numbers::Kind;

// The type of a string literal of so many bytes.
pub fn for_string_literal(length: u64) -> [u64; 6]
    ensures { result ≡ spelled (string_literal length) }
{
    two_layers(Layer::array(length), Layer::plain(Kind::CHAR8))
}

// The type of a string slice.
pub fn for_string_slice() -> [u64; 6]
    ensures { result ≡ spelled string_slice }
{
    two_layers(Layer::plain(Kind::SLICE), Layer::plain(Kind::CHAR8))
}
