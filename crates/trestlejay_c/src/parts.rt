ghost use Rattle.std.specs.Prelude.{◌≡◌};
ghost use Rattle.type_part_starts.specs.declared.part_starts.Part.TheVariants as Part;
ghost use Rattle.type_part_starts.specs.PartStarts.{start_answer};
ghost use Rattle.write_answer.specs.Flat.{flat};

use trestlejay::Answer;

#[unsafe(no_mangle)]
pub extern "C" fn tj_get_element_type(t: &[u64]) -> Answer
    ensures { result ≡ flat (start_answer Part.Element t.now) }
{
    trestlejay::tj_get_element_type(t)
}

#[unsafe(no_mangle)]
pub extern "C" fn tj_get_pointee_type(t: &[u64]) -> Answer
    ensures { result ≡ flat (start_answer Part.Pointee t.now) }
{
    trestlejay::tj_get_pointee_type(t)
}

#[unsafe(no_mangle)]
pub extern "C" fn tj_get_viewee_type(t: &[u64]) -> Answer
    ensures { result ≡ flat (start_answer Part.Viewee t.now) }
{
    trestlejay::tj_get_viewee_type(t)
}

#[unsafe(no_mangle)]
pub extern "C" fn tj_fully_dereferenced(t: &[u64]) -> Answer
    ensures { result ≡ flat (start_answer Part.Dereferenced t.now) }
{
    trestlejay::tj_fully_dereferenced(t)
}
