ghost use Rattle.std.specs.Prelude.{◌≡◌};
ghost use Rattle.write_answer.specs.Flat.{flat};
ghost use Rattle.face_measures.specs.AsCoded.{of_told, of_told_found};
ghost use Rattle.face_measures.specs.Measured as rules;

use type_bounds::Halves;
use write_answer::{Answer, accepted};

// A start; 0 where there is no such part. The refusal of each is handed on as it is.
#[tactic(auto, unfolding(write_answer::specs::Flat::flat))]
pub fn start(found: Result<Option<u64>, Answer>) -> Answer
    ensures { result ≡ flat (of_told_found found) }
{
    match found {
        Ok(Some(n)) => accepted(n),
        Ok(None) => accepted(0),
        Err(e) => e,
    }
}

#[tactic(auto, unfolding(write_answer::specs::Flat::flat))]
pub fn count(depth: Result<u64, Answer>) -> Answer
    ensures { result ≡ flat (of_told depth) }
{
    match depth {
        Ok(n) => accepted(n),
        Err(e) => e,
    }
}

// The size goes where it was lent; without a size, what stood there stays.
#[tactic(auto, unfolding(crate::specs::Measured::flat_found, crate::specs::Measured::found_after))]
pub fn size(found: Result<Option<u64>, Answer>, out: &mut u64) -> Answer
    ensures answer { result ≡ rules.flat_found (of_told_found found) }
    ensures written { out.new ≡ rules.found_after (of_told_found found) out.old }
{
    match found {
        Ok(Some(n)) => {
            *out = n;
            accepted(1)
        }
        Ok(None) => accepted(0),
        Err(e) => e,
    }
}

#[tactic(auto, unfolding(crate::specs::Measured::flat_halves, crate::specs::Measured::low_after, crate::specs::Measured::high_after))]
pub fn bound(halves: Result<Halves, Answer>, low: &mut u64, high: &mut u64) -> Answer
    ensures answer { result ≡ rules.flat_halves (of_told halves) }
    ensures lower { low.new ≡ rules.low_after (of_told halves) low.old }
    ensures upper { high.new ≡ rules.high_after (of_told halves) high.old }
{
    match halves {
        Ok(h) => {
            *low = h.low;
            *high = h.high;
            accepted(0)
        }
        Err(e) => e,
    }
}
