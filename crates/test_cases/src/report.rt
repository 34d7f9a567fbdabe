use relation_coerces::Coercion;
use std::io;
use type_bounds::{Halves, max_u128, min_i128};
use type_first_refusal::check_type;
use type_layers::Refused;
use type_part_starts::{Part, start_of};
use type_properties::{Property, has};
use type_roles::{Role, can_be};
use type_size_and_depth::{known_size_in_bytes_as_word_member, pointer_depth};
use type_stored_size::stored_size;
use type_wellformed::wellformed;

// How an answer is written: a value behind a space, or the refusal's number and place.
pub(crate) trait Show {
    fn show(self, rt: &impl Print) -> io::Result<()>;
}

impl Show for u64 {
    fn show(self, rt: &impl Print) -> io::Result<()> {
        print!(rt; " {self}")
    }
}

impl Show for bool {
    fn show(self, rt: &impl Print) -> io::Result<()> {
        u64::from(self).show(rt)
    }
}

impl Show for Coercion {
    fn show(self, rt: &impl Print) -> io::Result<()> {
        u64::from(self).show(rt)
    }
}

impl Show for Halves {
    fn show(self, rt: &impl Print) -> io::Result<()> {
        print!(rt; " {:x}:{:x}", self.high, self.low)
    }
}

impl<T: Show> Show for Option<T> {
    fn show(self, rt: &impl Print) -> io::Result<()> {
        match self {
            Some(value) => value.show(rt),
            None => print!(rt; " -"),
        }
    }
}

impl<T: Show> Show for Result<T, Refused> {
    fn show(self, rt: &impl Print) -> io::Result<()> {
        match self {
            Ok(value) => value.show(rt),
            Err(e) => print!(rt; " !{}@{}", u64::from(e.refusal), e.place),
        }
    }
}

fn properties(rt: &impl Print, t: &[u64]) -> io::Result<()> {
    wellformed(t).show(rt)?;
    for property in [
        Property::Void,
        Property::Integral,
        Property::Signed,
        Property::Bitfield,
        Property::SlicePointer,
    ] {
        has(property, t).show(rt)?;
    }
    Ok(())
}

fn roles(rt: &impl Print, t: &[u64]) -> io::Result<()> {
    print!(rt; " |")?;
    for role in [
        Role::Sized,
        Role::StructMember,
        Role::WordMember,
        Role::Constant,
        Role::Variable,
        Role::Parameter,
        Role::Returned,
    ] {
        can_be(role, t).show(rt)?;
    }
    Ok(())
}

fn starts(rt: &impl Print, t: &[u64]) -> io::Result<()> {
    print!(rt; " |")?;
    for part in [
        Part::Element,
        Part::Pointee,
        Part::Viewee,
        Part::Dereferenced,
    ] {
        start_of(part, t).show(rt)?;
    }
    Ok(())
}

fn measures(rt: &impl Print, t: &[u64]) -> io::Result<()> {
    print!(rt; " |")?;
    known_size_in_bytes_as_word_member(t).show(rt)?;
    pointer_depth(t).show(rt)?;
    min_i128(t).show(rt)?;
    max_u128(t).show(rt)?;
    for width in [4, 8] {
        stored_size(t, width).show(rt)?;
    }
    Ok(())
}

pub(crate) fn heading(rt: &impl Print) -> io::Result<()> {
    print!(rt; "words: layers wellformed void integral signed bitfield slice_pointer")?;
    print!(rt; " | sized struct_member word_member constant variable parameter returned")?;
    print!(rt; " | element pointee viewee dereferenced")?;
    println!(rt; " | known depth min max stored_with_4 stored_with_8")
}

// How many words, the first layer and the second's kind.
fn label(rt: &impl Print, t: &[u64]) -> io::Result<()> {
    print!(rt; "{}", t.len())?;
    match t {
        [k, name, number, inner, _, _, ..] => print!(rt; " ({k} {name} {number} of {inner}):"),
        [k, name, number, ..] => print!(rt; " ({k} {name} {number}):"),
        _ => print!(rt; ":"),
    }
}

// One line: what the words are, and every answer.
pub(crate) fn report(rt: &impl Print, t: &[u64]) -> io::Result<()> {
    label(rt, t)?;
    check_type(t).show(rt)?;
    properties(rt, t)?;
    roles(rt, t)?;
    starts(rt, t)?;
    measures(rt, t)?;
    println!(rt)
}
