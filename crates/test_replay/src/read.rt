ghost use Rattle.std.specs.Prelude.{◌-◌, ◌≤◌, length};

// The lines that are still to be read.
#[derive(Clone, Copy)]
pub(crate) struct Lines<'a> {
    pub rest: &'a [u8],
}

impl<'a> Lines<'a> {
    // The next decimal number, and whether it ends its line; the byte that ends it is read too. One too long for a word ends
    // early, and its digits go on as the next: so no `parse`.
    fn number(&mut self) -> (u64, bool)
        ensures { length self.new.rest.now ≤ length self.old.rest.now - 1 }
    {
        let text = self.rest;
        let mut value = 0u64;
        for (i, &byte) in text.iter().enumerate() {
            self.rest = &text[i + 1..];
            if !byte.is_ascii_digit() {
                return (value, byte == b'\n');
            }
            let digit = u64::from(byte - b'0');
            let Some(longer) = value.checked_mul(10).and_then(|v| v.checked_add(digit)) else {
                return (value, false);
            };
            value = longer;
        }
        (value, true)
    }

    // The numbers of a line into the buffer, and how many there are. A line with more than there is room for ends early.
    pub(crate) fn line(&mut self, out: &mut [u64]) -> usize
        ensures onward { length self.new.rest.now ≤ length self.old.rest.now - 1 }
        ensures within { result ≤ length out.new }
    {
        for (i, word) in out.iter_mut().enumerate() {
            let (value, last) = self.number();
            *word = value;
            if last {
                return i + 1;
            }
        }
        self.number();
        out.len()
    }
}
