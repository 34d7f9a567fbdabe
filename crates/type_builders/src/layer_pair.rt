ghost use Rattle.std.specs.Prelude.{◌≡◌, [], ◌∷◌};
ghost use Rattle.type_layers.specs.Layers.{spelled};
ghost use Rattle.type_layers.specs.AsCoded.{head};

// Two layers in a row: a layer, and the next one inside.
#[tactic(auto, unfolding(type_layers::specs::Layers::spelled))]
pub fn two_layers(outer: [u64; 3], next: [u64; 3]) -> [u64; 6]
    ensures { result ≡ spelled (head outer ∷ head next ∷ []) }
{
    [outer[0], outer[1], outer[2], next[0], next[1], next[2]]
}
