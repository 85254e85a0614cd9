// A line that is being written, by value.
ghost use Rattle.std.specs.Prelude.{[], ◌∷◌, ◌++◌, ◌≡◌, ◌+◌, ◌*◌, length};
ghost use Rattle.text.specs.Text.{decimal, spaced};
ghost use Rattle.text.specs.Line.{text_of, Room, Added, AddedWithin};

// The first len of its bytes are written. Seven numbers of 20 digits fit. An array with its length, since a crate for vectors of fixed size
// would be one more to trust.
#[derive(Drop)]
pub struct Line {
    pub bytes: [u8; 160],
    pub len: usize,
}

pub(crate) fn start() -> Line
    ensures { (text_of result ≡ []) × (result.len ≡ 0) }
{
    Line {
        bytes: [0; 160],
        len: 0,
    }
}

impl Line {
    pub(crate) fn put_byte(mut self, b: u8) -> Line
        requires { Room 1 self }
        ensures { Added self (b ∷ []) result }
    {
        let at = self.len;
        self.bytes[at] = b;
        self.len = at + 1;
        self
    }

    pub(crate) fn put_word(self, w: &[u8]) -> Line
        requires { Room (length w.now) self }
        ensures { Added self w.now result }
    {
        let mut l = self;
        for b in w {
            l = l.put_byte(*b);
        }
        l
    }

    // A number has at most 20 digits.
    pub(crate) fn put_number(self, n: u64) -> Line
        requires { Room 20 self }
        ensures { AddedWithin 20 self (decimal n) result }
    {
        let mut digits = itoa::Buffer::new();
        self.put_word(digits.format(n).as_bytes())
    }

    fn put_spaced(self, n: u64) -> Line
        requires { Room 21 self }
        ensures { AddedWithin 21 self (32 ∷ decimal n) result }
    {
        self.put_byte(b' ').put_number(n)
    }

    // Each number after a space.
    pub(crate) fn put_numbers(self, ns: &[u64]) -> Line
        requires { Room (21 * length ns.now) self }
        ensures { AddedWithin (21 * length ns.now) self (spaced ns.now) result }
    {
        let mut l = self;
        for n in ns {
            l = l.put_spaced(*n);
        }
        l
    }

    // A word, and a number after a space.
    pub(crate) fn put_item(self, w: &[u8], n: u64) -> Line
        requires { Room (length w.now + 21) self }
        ensures { AddedWithin (length w.now + 21) self (w.now ++ (32 ∷ decimal n)) result }
    {
        self.put_word(w).put_spaced(n)
    }
}
