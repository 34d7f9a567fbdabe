ghost use Rattle.std.specs.Prelude.{◌≡◌};
ghost use Rattle.extern_fixing.specs.Answers.{fixed_answer, fixed_buffer};
ghost use Rattle.write_answer.specs.Flat as rules;

use write_answer::Answer;

pub fn tj_fix_type_for_flags(t: &[u64], external: bool, context: u64, out: &mut [u64]) -> Answer
    ensures answer { result ≡ rules.flat (fixed_answer t.now external context out.old) }
    ensures written { out.new ≡ fixed_buffer t.now external context out.old }
{
    Answer::from(extern_fixing::fix_type_for_flags(t, external, context, out))
}
