ghost use Rattle.std.specs.Prelude.{◌≡◌};
ghost use Rattle.type_properties.specs.declared.properties.Property.TheVariants as Property;
ghost use Rattle.type_checks.specs.Check.{check_of};
ghost use Rattle.type_wellformed.specs.WellFormed.{well_formed_answer};
ghost use Rattle.type_properties.specs.Properties.{property_answer};
ghost use Rattle.write_answer.specs.Flat.{flat};

use trestlejay::Answer;

#[unsafe(no_mangle)]
pub extern "C" fn tj_check(t: &[u64]) -> Answer
    ensures { result ≡ flat (check_of t.now) }
{
    trestlejay::tj_check(t)
}

#[unsafe(no_mangle)]
pub extern "C" fn tj_is_wellformed(t: &[u64]) -> Answer
    ensures { result ≡ flat (well_formed_answer t.now) }
{
    trestlejay::tj_is_wellformed(t)
}

#[unsafe(no_mangle)]
pub extern "C" fn tj_is_void(t: &[u64]) -> Answer
    ensures { result ≡ flat (property_answer Property.Void t.now) }
{
    trestlejay::tj_is_void(t)
}

#[unsafe(no_mangle)]
pub extern "C" fn tj_is_integral(t: &[u64]) -> Answer
    ensures { result ≡ flat (property_answer Property.Integral t.now) }
{
    trestlejay::tj_is_integral(t)
}

#[unsafe(no_mangle)]
pub extern "C" fn tj_is_signed(t: &[u64]) -> Answer
    ensures { result ≡ flat (property_answer Property.Signed t.now) }
{
    trestlejay::tj_is_signed(t)
}

#[unsafe(no_mangle)]
pub extern "C" fn tj_is_bitfield(t: &[u64]) -> Answer
    ensures { result ≡ flat (property_answer Property.Bitfield t.now) }
{
    trestlejay::tj_is_bitfield(t)
}

#[unsafe(no_mangle)]
pub extern "C" fn tj_is_slice_pointer(t: &[u64]) -> Answer
    ensures { result ≡ flat (property_answer Property.SlicePointer t.now) }
{
    trestlejay::tj_is_slice_pointer(t)
}
