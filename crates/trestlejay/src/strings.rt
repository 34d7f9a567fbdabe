ghost use Rattle.std.specs.Prelude.{◌≡◌};
ghost use Rattle.type_layers.specs.Answer.{given};
ghost use Rattle.type_layers.specs.Layers.{layers};
ghost use Rattle.type_builders.specs.Strings.{string_literal, string_slice};
ghost use Rattle.write_type.specs.Outcome.{answer_in, buffer_in};
ghost use Rattle.write_answer.specs.Flat as rules;

use type_builders::{for_string_literal, for_string_slice};
use write_answer::Answer;
use write_type::write_type;

// Writes a type whose words are there.
fn hand_out(t: &[u64], out: &mut [u64]) -> Answer
    ensures answer { result ≡ rules.flat (answer_in out.old (given (layers t.now))) }
    ensures written { out.new ≡ buffer_in out.old (given (layers t.now)) }
{
    Answer::from(write_type(out, &[], t))
}

pub fn tj_for_string_literal(length: u64, out: &mut [u64]) -> Answer
    ensures answer { result ≡ rules.flat (answer_in out.old (given (string_literal length))) }
    ensures written { out.new ≡ buffer_in out.old (given (string_literal length)) }
{
    hand_out(&for_string_literal(length), out)
}

pub fn tj_for_string_slice(out: &mut [u64]) -> Answer
    ensures answer { result ≡ rules.flat (answer_in out.old (given string_slice)) }
    ensures written { out.new ≡ buffer_in out.old (given string_slice) }
{
    hand_out(&for_string_slice(), out)
}
