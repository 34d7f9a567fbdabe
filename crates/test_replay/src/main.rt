// Program: 4096 answers of the Rust, about types, symbols and plans, replayed and compared.
// Each line of standard input is a case, in decimal numbers:
//
//     question, refusal, value, written, a, b
//
// where written, a and b are runs, each a count and so many words. Behind them lines about symbols and plans have the runs target and
// steps, and a table: a count of records, and of each its six fields and the run of words that stand in its part of the store.
//
// 0 to 30 ask about the type a, or about a and b, in the header's order; of 20, b is the width. Written is what stands
//    behind the pointers.
// 31 fixes a. b: 1 where it is extern, the context, the words lent. Written is the type.
// 32 updates the table's only record, lent alone, by the offered type a. b: id, authority, place, mark, the store's words.
// 33 to 38 put nothing, a type, poison, forward declare a type, poison, and get; a and b as above.
//    Of these, written is the slot with the record's fields and words where one is stored; of get, what was found.
// 39 plans from a. b: depth, rounds, the words lent for the steps and for the type, the store's words.
//    Written is steps, taken, layers, address, coerced, then the steps' words and the type's.
// 40 walks from a. b: the address, the words lent, two that are 0, the store's words. Written is the type.
#![tactic(auto)]

ghost use Rattle.std.specs.Prelude.{◌≤◌, IfOk, length};

mod answer;
mod case;
mod changing;
mod compare;
mod fixing;
mod lent;
mod planning;
mod read;
mod runs;

use std::io;
use std::io::Read;

// Room for the whole list. A function of its own: in `main` the check computes the array, and runs out of stack.
fn buffer() -> [u8; 1048576] {
    [0; 1048576]
}

// Reads until the buffer is full or the input ends, and says how many bytes stand in it then. It stands in `pairs` too, since a
// crate for this one function is no plainer.
fn read_full(input: &mut impl Read, out: &mut [u8]) -> io::Result<usize>
    ensures { IfOk result (λ n. n ≤ length out.new) }
{
    let mut n = 0;
    while n < out.len() {
        let read = input.read(&mut out[n..])?;
        if read == 0 {
            break;
        }
        n += read;
    }
    Ok(n)
}

fn main(rt: HostRuntime) -> io::Result<()> {
    let mut text = buffer();
    let n = read_full(&mut rt.stdin(), &mut text)?;
    compare::run_all(&rt, &text[..n])
}
