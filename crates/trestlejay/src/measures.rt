ghost use Rattle.std.specs.Prelude.{◌≡◌};
ghost use Rattle.type_size_and_depth.specs.Known.{known_size_answer};
ghost use Rattle.type_size_and_depth.specs.Depth.{pointer_depth_answer};
ghost use Rattle.type_bounds.specs.Bounds.{lowest_answer, highest_answer};
ghost use Rattle.type_stored_size.specs.StoredSize.{stored_size_answer};
ghost use Rattle.write_answer.specs.Flat.{flat};
ghost use Rattle.face_measures.specs.Measured as rules;

use write_answer::Answer;

pub fn tj_pointer_depth(t: &[u64]) -> Answer
    ensures { result ≡ flat (pointer_depth_answer t.now) }
{
    face_measures::count(type_size_and_depth::pointer_depth(t).map_err(Answer::from))
}

pub fn tj_known_size_in_bytes_as_word_member(t: &[u64], size: &mut u64) -> Answer
    ensures answer { result ≡ rules.flat_found (known_size_answer t.now) }
    ensures written { size.new ≡ rules.found_after (known_size_answer t.now) size.old }
{
    face_measures::size(
        type_size_and_depth::known_size_in_bytes_as_word_member(t).map_err(Answer::from),
        size,
    )
}

pub fn tj_stored_size(t: &[u64], width: u64, size: &mut u64) -> Answer
    ensures answer { result ≡ rules.flat_found (stored_size_answer width t.now) }
    ensures written { size.new ≡ rules.found_after (stored_size_answer width t.now) size.old }
{
    face_measures::size(
        type_stored_size::stored_size(t, width).map_err(Answer::from),
        size,
    )
}

pub fn tj_min_i128(t: &[u64], low: &mut u64, high: &mut u64) -> Answer
    ensures answer { result ≡ rules.flat_halves (lowest_answer t.now) }
    ensures lower { low.new ≡ rules.low_after (lowest_answer t.now) low.old }
    ensures upper { high.new ≡ rules.high_after (lowest_answer t.now) high.old }
{
    face_measures::bound(type_bounds::min_i128(t).map_err(Answer::from), low, high)
}

pub fn tj_max_u128(t: &[u64], low: &mut u64, high: &mut u64) -> Answer
    ensures answer { result ≡ rules.flat_halves (highest_answer t.now) }
    ensures lower { low.new ≡ rules.low_after (highest_answer t.now) low.old }
    ensures upper { high.new ≡ rules.high_after (highest_answer t.now) high.old }
{
    face_measures::bound(type_bounds::max_u128(t).map_err(Answer::from), low, high)
}
