ghost use Rattle.sheet_text.specs.AsCoded.{PutsIfRoom};
ghost use Rattle.sheet_text.specs.Decimal.{decimal};

// A lent text, into which bytes are put one run behind the other, and the place behind the last.
#[derive(Drop)]
pub struct Text<'a> {
    pub out: &'a mut [u8],
    pub at: usize,
}

impl<'a> Text<'a> {
    // Puts bytes at the place; nothing where they do not fit.
    #[tactic(auto, unfolding(crate::specs::AsCoded::put_at, crate::specs::AsCoded::put_in, crate::specs::AsCoded::behind))]
    pub fn put(&mut self, bytes: &[u8])
        ensures { PutsIfRoom bytes.now self.old self.new }
    {
        let at = self.at;
        let Some(end) = at.checked_add(bytes.len()) else {
            return;
        };
        if end <= self.out.len() {
            self.out[at..end].copy_from_slice(bytes);
            self.at = end;
        }
    }

    // Puts a number below 100 in decimal; of others nothing.
    #[tactic(auto, using(crate::proofs::Putting::nothing_in, crate::proofs::Putting::nothing_behind), unfolding(crate::specs::Decimal::decimal))]
    pub fn put_number(&mut self, n: usize)
        ensures { PutsIfRoom (decimal n) self.old self.new }
    {
        match n {
            0..10 => self.put(&[b'0' + n as u8]),
            10..100 => self.put(&[b'0' + (n / 10) as u8, b'0' + (n % 10) as u8]),
            _ => {}
        }
    }
}
