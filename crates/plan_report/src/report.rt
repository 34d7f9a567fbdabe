ghost use Rattle.std.specs.Prelude.{◌≡◌};
ghost use Rattle.plan_report.specs.Report.{not_given, Reports};

use type_layers::Refused;

// A plan as it is told: its refusal, or how many steps and layers were written and what the plan does then.
#[repr(C)]
#[derive(Clone, Copy, Debug, PartialEq, Eq)]
pub struct Report {
    pub refusal: u64,
    pub value: u64,
    pub steps: u64,
    pub taken: u64,
    pub layers: u64,
    pub address: bool,
    pub coerced: bool,
}

// What is told of no plan.
pub fn refuse(number: u64, place: u64) -> Report
    ensures { result ≡ not_given number place }
{
    Report {
        refusal: number,
        value: place,
        steps: 0,
        taken: 0,
        layers: 0,
        address: false,
        coerced: false,
    }
}

// The report of a plan, or why there is none.
impl From<Result<Report, Refused>> for Report {
    ghost from_gives = { Reports };

    fn from(planned: Result<Report, Refused>) -> Report {
        match planned {
            Ok(report) => report,
            Err(e) => refuse(e.refusal.into(), e.place),
        }
    }
}
