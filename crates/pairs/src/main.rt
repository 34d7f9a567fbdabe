// Program: reads a sheet and prints how each of its types stands to each; `sheet_pairs` makes the text.
#![tactic(auto)]

ghost use Rattle.std.specs.Prelude.{◌≡◌, ◌≤◌, IfOk, length};

use sheet_pairs::pairs_text;
use std::io;
use std::io::Read;
use type_numbers::Limit;

// Room for one byte more than the longest sheet has: longer input is then refused.
fn buffer() -> [u8; Limit::SHEET_BYTES + 1]
    ensures { 12553 ≡ length result }
{
    [0; Limit::SHEET_BYTES + 1]
}

// Reads until the buffer is full or the input ends, and says how many bytes stand in it then. `test_replay` has the same
// function: a public one would need a contract that allows one outcome, and no clause says which bytes come in.
fn read_full(input: &mut impl Read, out: &mut [u8]) -> io::Result<usize>
    ensures { IfOk result (λ n. n ≤ length out.new) }
{
    let mut n = 0;
    while n < out.len() {
        let read = input.read(&mut out[n..])?;
        if read == 0 {
            break;
        }
        n += read;
    }
    Ok(n)
}

// All that is printed is made by `pairs_text`; here bytes are only moved.
fn main(rt: HostRuntime) -> io::Result<()> {
    let mut sheet = buffer();
    let n = read_full(&mut rt.stdin(), &mut sheet)?;
    let mut text = [0; Limit::PAIRS_BYTES];
    let size = pairs_text(&sheet[..n], &mut text);
    rt.write_all(&text[..size])
}
