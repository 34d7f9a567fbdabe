ghost use Rattle.std.specs.Prelude.{◌≡◌, ◌++◌, ◌+◌, ◌*◌, ◌≤◌, ◌<◌, length, take};
ghost use Rattle.type_numbers.specs.Limit as limit;
ghost use Rattle.type_numbers.specs.Refusal.{number_of};
ghost use Rattle.write_words.specs.Written.{written};
ghost use Rattle.sheet_contents.specs.Contents.{types, type_at};
ghost use Rattle.sheet_text.specs.AsCoded.{Puts};
ghost use Rattle.sheet_pairs.specs.Text as text;

use crate::line::put_line;
use sheet_contents::type_at;
use sheet_read::read_sheet;
use sheet_text::Text;
use sheet_words::words_of;
use type_layers::Refused;
use type_numbers::Limit;

// Puts the lines of one left type against each of the n types of a sheet: 32 of 18 bytes at most.
fn put_row(to: &mut Text<'_>, words: &[u64], n: usize, i: usize)
    requires { (to.old.at + 576 ≤ length to.old.out.now) × (n ≤ limit.sheet_types) × (i < limit.sheet_types) × (n ≡ length (types words.now)) }
    ensures { Puts (text.row (types words.now) (i + 1) (type_at i words.now)) to.old to.new }
{
    let left = type_at(words, i);
    for j in 0..n {
        put_line(to, i + 1, j + 1, left, type_at(words, j));
    }
}

// Puts the lines of all ordered pairs of the n types of a sheet.
fn put_rows(to: &mut Text<'_>, words: &[u64], n: usize)
    requires { (to.old.at + n * 576 ≤ length to.old.out.now) × (n ≤ limit.sheet_types) × (n ≡ length (types words.now)) }
    ensures { Puts (text.rows (types words.now)) to.old to.new }
{
    for i in 0..n {
        put_row(to, words, n, i);
    }
}

// Puts the line of a refusal.
fn put_refusal(to: &mut Text<'_>, e: Refused)
    requires { (to.old.at + 12 ≤ length to.old.out.now) × (number_of e.refusal < 100) }
    ensures { Puts (text.refusal (number_of e.refusal)) to.old to.new }
{
    to.put(b"refused ");
    to.put_number(u64::from(e.refusal) as usize);
    to.put(b"\n");
}

// Puts the header and the lines of a sheet of n types.
fn put_table(to: &mut Text<'_>, words: &[u64], n: usize)
    requires { (to.old.at + limit.pairs_bytes ≤ length to.old.out.now) × (n ≤ limit.sheet_types) × (n ≡ length (types words.now)) }
    ensures { Puts (text.header ++ text.rows (types words.now)) to.old to.new }
{
    to.put(b"left right equals declared concrete coerces address autoderef\n");
    put_rows(to, words, n);
}

// Puts what `pairs` prints of the bytes that it read.
fn put_text(to: &mut Text<'_>, bytes: &[u8])
    requires { to.old.at + limit.pairs_bytes ≤ length to.old.out.now }
    ensures { Puts (text.text bytes.now) to.old to.new }
{
    match read_sheet(bytes) {
        Ok(n) => {
            let words = words_of(bytes);
            put_table(to, &words[..bytes.len() / 8], n as usize);
        }
        Err(e) => put_refusal(to, e),
    }
}

// Puts what `pairs` prints of the bytes that it read into a lent text, from its first byte on; and how long it is.
pub fn pairs_text(bytes: &[u8], out: &mut [u8; Limit::PAIRS_BYTES]) -> usize
    ensures length { (result ≡ length (text.text bytes.now))
        × (result ≤ length out.new)
        × (result ≡ length (take result out.new)) }
    ensures text { out.new ≡ written (text.text bytes.now) out.old }
{
    let mut to = Text { out, at: 0 };
    put_text(&mut to, bytes);
    to.at
}
