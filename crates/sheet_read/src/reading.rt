ghost use Rattle.std.specs.Prelude.{◌≡◌};
ghost use Rattle.type_layers.specs.Answer.{of_result};
ghost use Rattle.sheet_read.specs.Sheet as sheet;

use sheet_contents::{type_at, types_in};
use sheet_words::words_of;
use type_first_refusal::check_type;
use type_layers::Refused;
use type_numbers::{Limit, Refusal};

// The words of a sheet: how many types it has, or the first refusal.
pub fn read_words(words: &[u64]) -> Result<u64, Refused>
    ensures { of_result result ≡ sheet.read_words words.now }
{
    let n = types_in(words).ok_or(Refusal::BadSheet)?;
    for k in 0..n {
        check_type(type_at(words, k))?;
    }
    Ok(n as u64)
}

// The bytes of a sheet: how many types it has, or the first refusal.
pub fn read_sheet(bytes: &[u8]) -> Result<u64, Refused>
    ensures { of_result result ≡ sheet.read_sheet bytes.now }
{
    if bytes.len() > Limit::SHEET_BYTES || bytes.len() % 8 != 0 {
        return Err(Refusal::BadSheet.into());
    }
    let words = words_of(bytes);
    read_words(&words[..bytes.len() / 8])
}
