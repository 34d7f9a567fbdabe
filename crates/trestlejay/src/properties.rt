ghost use Rattle.std.specs.Prelude.{◌≡◌};
ghost use Rattle.type_checks.specs.Check.{check_of};
ghost use Rattle.type_wellformed.specs.WellFormed.{well_formed_answer};
ghost use Rattle.type_properties.specs.Properties.{property_answer};
ghost use Rattle.write_answer.specs.Flat.{flat};

use type_properties::Property;
use write_answer::Answer;

pub fn tj_check(t: &[u64]) -> Answer
    ensures { result ≡ flat (check_of t.now) }
{
    Answer::from(type_first_refusal::check_type(t))
}

pub fn tj_is_wellformed(t: &[u64]) -> Answer
    ensures { result ≡ flat (well_formed_answer t.now) }
{
    Answer::from(type_wellformed::wellformed(t))
}

pub fn tj_is_void(t: &[u64]) -> Answer
    ensures { result ≡ flat (property_answer Property.Void t.now) }
{
    Answer::from(type_properties::has(Property::Void, t))
}

pub fn tj_is_integral(t: &[u64]) -> Answer
    ensures { result ≡ flat (property_answer Property.Integral t.now) }
{
    Answer::from(type_properties::has(Property::Integral, t))
}

pub fn tj_is_signed(t: &[u64]) -> Answer
    ensures { result ≡ flat (property_answer Property.Signed t.now) }
{
    Answer::from(type_properties::has(Property::Signed, t))
}

pub fn tj_is_bitfield(t: &[u64]) -> Answer
    ensures { result ≡ flat (property_answer Property.Bitfield t.now) }
{
    Answer::from(type_properties::has(Property::Bitfield, t))
}

pub fn tj_is_slice_pointer(t: &[u64]) -> Answer
    ensures { result ≡ flat (property_answer Property.SlicePointer t.now) }
{
    Answer::from(type_properties::has(Property::SlicePointer, t))
}
