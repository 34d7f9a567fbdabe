ghost use Rattle.std.specs.Prelude.{◌≡◌, ◌*◌, ◌≤◌, IfSome, length};
ghost use Rattle.type_numbers.specs.Limit as limit;
ghost use Rattle.sheet_contents.specs.Contents as sheet;

use type_numbers::Limit;

// Whether a count is from 1 to a limit.
fn up_to(most: u64, n: u64) -> bool
    ensures { result ≡ sheet.up_to most n }
{
    (1..=most).contains(&n)
}

// The layers of all types together; none where a layer count is not 1 to 16.
fn total(counts: &[u64]) -> Option<usize>
    requires { length counts.now ≤ limit.sheet_types }
    ensures is { result ≡ sheet.layers_of counts.now }
    ensures few { IfSome result (λ n. n ≤ limit.sheet_types * limit.layers) }
{
    let mut sum = 0;
    for &count in counts {
        if !up_to(Limit::LAYERS, count) {
            return None;
        }
        sum += count as usize;
    }
    Some(sum)
}

// How many types a sheet has; none where the counts are not those of a sheet, or a word is missing or left over.
pub fn types_in(words: &[u64]) -> Option<usize>
    ensures is { result ≡ sheet.types_in words.now }
    ensures few { IfSome result (λ n. n ≤ limit.sheet_types) }
{
    let [count, rest @ ..] = words else {
        return None;
    };
    if !up_to(Limit::SHEET_TYPES, *count) {
        return None;
    }
    let n = *count as usize;
    let layers = total(rest.get(..n)?)?;
    (rest.len() == n + 3 * layers).then_some(n)
}

// The words of type k of a sheet; of no such type, and of other words, no words.
pub fn type_at(words: &[u64], k: usize) -> &[u64]
    ensures { result.now ≡ sheet.type_at k words.now }
{
    match types_in(words) {
        Some(n) if k < n => {
            let before = total(&words[1..k + 1]).unwrap();
            let start = 1 + n + 3 * before;
            let end = start + 3 * (words[k + 1] as usize);
            &words[start..end]
        }
        _ => &[],
    }
}
