// Decimal numbers (rule 11.2) and key=value lines (rule 11.1), written into a lent buffer. Their forms are in
// crates/text, whose readers read them back.
#![tactic(auto)]

ghost use Rattle.std.specs.Prelude.{ℤ, ◌+◌, ◌^◌, ◌<◌, ◌≡◌, [], ◌∷◌, length, pos};
ghost use Rattle.text.specs.Decimal.{dec, decimal};
ghost use Rattle.text.specs.Line.{line_of};
ghost use Rattle.writing.specs.Wrote.{Wrote};

// A lent buffer and the place up to which it is written. Past the buffer's end nothing is stored and the place goes on: so one function
// both measures (on an empty buffer) and writes.
// No `Display`: it wants a path into std, which the library has none of, and the bytes written are what the contracts state.
#[derive(Drop)]
pub struct Writer<'a> {
    pub buf: &'a mut [u8],
    pub at: usize,
}

impl Writer<'_> {
    fn byte(&mut self, b: u8)
        requires { self.old.at + 1 < 2 ^ 64 }
        ensures { Wrote self.old (b ∷ []) self.new }
    {
        if self.at < self.buf.len() {
            self.buf[self.at] = b;
        }
        self.at += 1;
    }

    // Writes the bytes of w. Ruled out: a byte after w's end changed; the buffer's end for the place.
    pub fn bytes(&mut self, w: &[u8])
        requires { self.old.at + length w.now < 2 ^ 64 }
        ensures { Wrote self.old w.now self.new }
    {
        for b in w {
            self.byte(*b);
        }
    }

    // Writes the digits of v.
    fn digits(&mut self, v: u64)
        requires { self.old.at + length (dec v) < 2 ^ 64 }
        ensures { Wrote self.old (dec v) self.new }
    {
        if v < 10 {
            self.byte(48 + (v as u8));
        } else {
            self.digits(v / 10);
            self.byte(48 + ((v % 10) as u8));
        }
    }

    // Writes a line: the key, which ends with `=`, the number and byte 10.
    // Ruled out: a line without its byte 10; byte 10 one place further on; the minus before the key.
    pub fn line<N: Number>(&mut self, key: &[u8], n: N)
        requires { self.old.at + length (line_of key.now (N.number n)) < 2 ^ 64 }
        ensures { Wrote self.old (line_of key.now (N.number n)) self.new }
    {
        self.bytes(key);
        n.put(self);
        self.byte(10);
    }
}

// A number that is written in decimal.
pub trait Number: Copy {
    ghost number: { Self → ℤ };

    // Writes it, with a minus where it is negative.
    // Ruled out: the digits backwards; -0 for 0; a wrong digit for the least number, which has no negative.
    fn put(self, to: &mut Writer<'_>)
        requires { to.old.at + length (decimal (number self)) < 2 ^ 64 }
        ensures { Wrote to.old (decimal (number self)) to.new };
}

impl Number for u64 {
    ghost number = { pos };

    fn put(self, to: &mut Writer<'_>) {
        to.digits(self);
    }
}

impl Number for i64 {
    ghost number = { λ z. z };

    fn put(self, to: &mut Writer<'_>) {
        if self < 0 {
            to.byte(45);
            to.digits(self.unsigned_abs());
        } else {
            to.digits(self as u64);
        }
    }
}
