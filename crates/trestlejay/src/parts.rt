ghost use Rattle.std.specs.Prelude.{◌≡◌};
ghost use Rattle.type_part_starts.specs.PartStarts.{start_answer};
ghost use Rattle.write_answer.specs.Flat.{flat};

use face_measures::start;
use type_part_starts::Part;
use write_answer::Answer;

pub fn tj_get_element_type(t: &[u64]) -> Answer
    ensures { result ≡ flat (start_answer Part.Element t.now) }
{
    start(type_part_starts::start_of(Part::Element, t).map_err(Answer::from))
}

pub fn tj_get_pointee_type(t: &[u64]) -> Answer
    ensures { result ≡ flat (start_answer Part.Pointee t.now) }
{
    start(type_part_starts::start_of(Part::Pointee, t).map_err(Answer::from))
}

pub fn tj_get_viewee_type(t: &[u64]) -> Answer
    ensures { result ≡ flat (start_answer Part.Viewee t.now) }
{
    start(type_part_starts::start_of(Part::Viewee, t).map_err(Answer::from))
}

pub fn tj_fully_dereferenced(t: &[u64]) -> Answer
    ensures { result ≡ flat (start_answer Part.Dereferenced t.now) }
{
    start(type_part_starts::start_of(Part::Dereferenced, t).map_err(Answer::from))
}
