ghost use Rattle.std.specs.Prelude.{◌≡◌, replicate};
ghost use Rattle.type_numbers.specs.Limit as limit;
ghost use Rattle.write_words.specs.Written.{written};
ghost use Rattle.sheet_words.specs.Little.{whole_words};

use type_numbers::Limit;

// The whole words of the bytes, and zeros behind them; zeros alone where they are more than any sheet has.
pub fn words_of(bytes: &[u8]) -> [u64; Limit::SHEET_WORDS]
    ensures { result ≡ written (whole_words bytes.now) (replicate limit.sheet_words 0) }
{
    let mut words = [0; Limit::SHEET_WORDS];
    let (chunks, _) = bytes.as_chunks::<8>();
    if chunks.len() <= words.len() {
        for (i, chunk) in chunks.iter().enumerate() {
            words[i] = u64::from_le_bytes(*chunk);
        }
    }
    words
}
