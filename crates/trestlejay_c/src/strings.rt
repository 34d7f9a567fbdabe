ghost use Rattle.std.specs.Prelude.{◌≡◌};
ghost use Rattle.type_layers.specs.Answer.{given};
ghost use Rattle.type_builders.specs.Strings.{string_literal, string_slice};
ghost use Rattle.write_type.specs.Outcome.{answer_in, buffer_in};
ghost use Rattle.write_answer.specs.Flat as rules;

use trestlejay::Answer;

#[unsafe(no_mangle)]
pub extern "C" fn tj_for_string_literal(length: u64, out: &mut [u64]) -> Answer
    ensures answer { result ≡ rules.flat (answer_in out.old (given (string_literal length))) }
    ensures written { out.new ≡ buffer_in out.old (given (string_literal length)) }
{
    trestlejay::tj_for_string_literal(length, out)
}

#[unsafe(no_mangle)]
pub extern "C" fn tj_for_string_slice(out: &mut [u64]) -> Answer
    ensures answer { result ≡ rules.flat (answer_in out.old (given string_slice)) }
    ensures written { out.new ≡ buffer_in out.old (given string_slice) }
{
    trestlejay::tj_for_string_slice(out)
}
