ghost use Rattle.std.specs.Prelude.{◌≡◌};
ghost use Rattle.write_words.specs.Written.{written};

// Writes the words from the first word of a lent run on and keeps the rest; nothing where they do not fit.
#[tactic(auto, using(crate::proofs::Writing::written_so))]
pub fn write_words(out: &mut [u64], words: &[u64])
    ensures { out.new ≡ written words.now out.old }
{
    if words.len() <= out.len() {
        // One word after the other: a copy of the whole run would want memmove of a C host.
        for (i, &word) in words.iter().enumerate() {
            out[i] = word;
        }
    }
}
