ghost use Rattle.std.specs.Prelude.{◌≡◌};
ghost use Rattle.sheet_read.specs.Sheet.{read_sheet};
ghost use Rattle.write_answer.specs.Flat.{flat};

use write_answer::Answer;

pub fn tj_read_sheet(sheet: &[u8]) -> Answer
    ensures { result ≡ flat (read_sheet sheet.now) }
{
    Answer::from(sheet_read::read_sheet(sheet))
}
