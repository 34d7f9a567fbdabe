// The words of a case that are still to be read.
#[derive(Clone, Copy)]
pub(crate) struct Reader<'a> {
    pub rest: &'a [u64],
}

impl<'a> Reader<'a> {
    // The next word; 0 past the end.
    pub(crate) fn word(&mut self) -> u64 {
        let Some((&word, rest)) = self.rest.split_first() else {
            return 0;
        };
        self.rest = rest;
        word
    }

    // So many words.
    pub(crate) fn array<const N: usize>(&mut self) -> [u64; N] {
        let mut words = [0; N];
        for word in &mut words {
            *word = self.word();
        }
        words
    }

    // So many words, or all where there are fewer, in place.
    pub(crate) fn words(&mut self, count: u64) -> &'a [u64] {
        let words = self.rest;
        let (front, rest) = words.split_at(words.len().min(count as usize));
        self.rest = rest;
        front
    }

    // A run: a count and so many words.
    pub(crate) fn run(&mut self) -> &'a [u64] {
        let count = self.word();
        self.words(count)
    }
}
