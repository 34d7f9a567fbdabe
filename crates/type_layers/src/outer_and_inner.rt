ghost use Rattle.std.specs.Prelude.{◌≡◌};
ghost use Rattle.type_layers.specs.Layers as rules;
ghost use Rattle.type_layers.specs.Layers.{layers, inner_words};

use type_numbers::Kind;

// The outer kind; of no layer 25, which is no kind.
pub fn outer(a: &[u64]) -> u64
    ensures { result ≡ rules.outer (layers a.now) }
{
    match a {
        [kind, _, _, ..] => *kind,
        _ => Kind::NONE,
    }
}

// The inner type: the caller's own words from the next layer on; of no layer no words.
pub fn inner(a: &[u64]) -> &[u64]
    ensures { result.now ≡ inner_words a.now }
{
    match a {
        [_, _, _, inside @ ..] => inside,
        _ => &a[..0],
    }
}
