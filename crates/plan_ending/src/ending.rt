ghost use Rattle.std.specs.Prelude.{◌≡◌};
ghost use Rattle.plan_ending.specs.AsCoded as ending;

use plan_settling::Settling;
use type_numbers::StepKind;
use type_parts::fully_dereferenced;

// What a settling adds, in numbers: so many steps of a kind, so many Pointers before the body of the reported type.
#[derive(Clone, Copy, Debug, PartialEq, Eq)]
pub struct Ending {
    pub extra: u64,
    pub kind: u64,
    pub lead: u64,
    pub address: bool,
    pub coerced: bool,
}

// Of a current type of the pointer depth p; a refusal is handed back.
pub fn ending_of<E: Copy>(settling: Result<Settling, E>, p: u64, depth: u64) -> Result<Ending, E>
    ensures { result ≡ ending.ending_of settling p depth }
{
    let plain = Ending {
        extra: 0,
        kind: StepKind::AUTODEREF,
        lead: 0,
        address: false,
        coerced: false,
    };
    let addressed = Ending {
        lead: 1,
        address: true,
        ..plain
    };
    match settling {
        Ok(Settling::Identical | Settling::SlicePointer) => Ok(plain),
        Ok(Settling::Viewed) => Ok(Ending {
            extra: 1,
            kind: StepKind::AUTOVIEW,
            ..plain
        }),
        Ok(Settling::Coerced) => Ok(Ending {
            coerced: true,
            ..plain
        }),
        Ok(Settling::PointedTo | Settling::Addressed) => Ok(addressed),
        Ok(Settling::AddressCoerced) => Ok(Ending {
            coerced: true,
            ..addressed
        }),
        Ok(Settling::Dereferenced) => Ok(Ending {
            extra: p.saturating_sub(depth),
            lead: depth,
            ..plain
        }),
        Err(e) => Err(e),
    }
}

// The words of the reported type after its Pointers; of a refusal, those of the current type.
pub fn body_of<'a, E: Copy>(
    settling: Result<Settling, E>,
    cur: &'a [u64],
    target: &'a [u64],
) -> &'a [u64]
    ensures { result.now ≡ ending.body_of settling cur.now target.now }
{
    match settling {
        Ok(Settling::Viewed) => target,
        Ok(Settling::Dereferenced) => fully_dereferenced(cur),
        _ => cur,
    }
}
