ghost use Rattle.std.specs.Prelude.{◌≡◌};
ghost use Rattle.sheet_read.specs.Sheet.{read_sheet};
ghost use Rattle.write_answer.specs.Flat.{flat};

use trestlejay::Answer;

#[unsafe(no_mangle)]
pub extern "C" fn tj_read_sheet(sheet: &[u8]) -> Answer
    ensures { result ≡ flat (read_sheet sheet.now) }
{
    trestlejay::tj_read_sheet(sheet)
}
