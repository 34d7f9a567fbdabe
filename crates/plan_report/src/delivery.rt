ghost use Rattle.std.specs.Prelude.{◌≡◌, ◌%◌, ◌≤◌, length};
ghost use Rattle.type_layers.specs.AsCoded.{Whole};
ghost use Rattle.plan_report.specs.Report as report;
ghost use Rattle.plan_report.specs.AsCoded.{plan_of_words};

use crate::report::Report;
use plan_ending::Ending;
use type_builders::Layer;
use type_layers::Refused;
use type_numbers::{Kind, Limit, Refusal};
use write_words::write_words;

// A plan that is not written yet: the words of its steps, how many asked steps it takes, and the words of its type after
// the Pointers of its ending.
#[derive(Clone, Copy)]
pub struct Draft<'p> {
    pub steps: &'p [u64],
    pub taken: u64,
    pub ending: Ending,
    pub body: &'p [u64],
}

// Writes a plan where both its steps and its type have room.
pub fn deliver(draft: &Draft<'_>, steps: &mut [u64], ty: &mut [u64]) -> Result<Report, Refused>
    requires { (length draft.now.steps.now % 4 ≡ 0) × Whole draft.now.body.now × (draft.now.ending.lead ≤ 255) }
    ensures { report.DeliversResult
        (λ room wide. report.delivered room wide (plan_of_words draft.now.steps.now draft.now.taken draft.now.ending draft.now.body.now))
        result steps.old steps.new ty.old ty.new }
{
    let Draft {
        steps: planned,
        taken,
        ending,
        body,
    } = *draft;
    let lead = ending.lead as usize;
    let words = 3 * lead + body.len();
    if words > Limit::TYPE_WORDS {
        return Err(Refusal::TooManyLayers.into());
    }
    if (steps.len() < planned.len()) | (ty.len() < words) {
        return Err(Refusal::OutputTooShort.into());
    }
    // as many as a type can have
    let pointers = [Layer::plain(Kind::POINTER); 16];
    write_words(steps, planned);
    write_words(ty, pointers[..lead].as_flattened());
    write_words(&mut ty[3 * lead..], body);
    Ok(Report {
        refusal: 0,
        value: 0,
        steps: (planned.len() / 4) as u64,
        taken,
        layers: (words / 3) as u64,
        address: ending.address,
        coerced: ending.coerced,
    })
}
