ghost use Rattle.std.specs.Prelude.{◌≡◌};
ghost use Rattle.type_layers.specs.Layers.{layers};
ghost use Rattle.symbol_update_rule.specs.Rule.{line_of};
ghost use Rattle.symbol_update_rule.specs.AsCoded.{of_line};

use relation_coerces::coerces;
use relation_declared::{can_be_concretization_of, can_be_declared_as};
use relation_equals::identical;
use type_wellformed::is_wellformed;

// The lines of the rule, in its order.
#[derive(Clone, Copy, Debug, PartialEq, Eq)]
pub enum Line {
    Poisoned,
    IllFormed,
    Kept,
    TypeReplaced,
    BothReplaced,
    Conflicting,
}

// The first line that applies. authoritative: the symbol is; newly: the new identifier is.
#[tactic(auto, using(crate::proofs::Choices::read_as_value), unfolding(crate::specs::Rule::line_of))]
pub fn decide(
    poisoned: bool,
    authoritative: bool,
    newly: bool,
    stored: &[u64],
    offered: &[u64],
) -> Line
    ensures { of_line result ≡ line_of poisoned authoritative newly (layers stored.now) (layers offered.now) }
{
    if poisoned {
        Line::Poisoned
    } else if !(is_wellformed(offered) && is_wellformed(stored)) {
        Line::IllFormed
    } else if identical(stored, offered) || can_be_concretization_of(stored, offered) {
        Line::Kept
    } else if authoritative && can_be_declared_as(offered, stored) {
        Line::TypeReplaced
    } else if newly
        && (can_be_concretization_of(offered, stored) || coerces(offered, stored).is_as_value())
    {
        Line::BothReplaced
    } else {
        Line::Conflicting
    }
}
