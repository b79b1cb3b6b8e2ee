// Decimal numbers (rule 11.2) and key=value lines (rule 11.1), read from a text. The records' and the sheet's texts are
// made of these parts; what a form is and what a refusal means is in specs/Form.antt. crates/writing writes them.
#![tactic(auto)]

ghost use Rattle.std.specs.Prelude.{ℕ, List, ℤ, pos, ◌+◌, ◌*◌, ◌^◌, ◌≤◌, ◌<◌, ◌≡◌, ltb, length, negsuc};
ghost use Rattle.std.proofs.Common.{rules};
ghost use Rattle.text.specs.Decimal.{Range, Fit, number, plain, signed};
ghost use Rattle.text.specs.Line.{line};
ghost use Rattle.text.specs.Answer.{ReadIn, NaturalIn, SignedIn, Matched, Asked, AskedSigned};
ghost use Rattle.text.specs.Inner.{SameKey, word_at};

// Where a text breaks off: the place of the first byte that cannot stand there.
#[derive(Clone, Copy, PartialEq, Eq)]
pub struct Wrong {
    pub place: usize,
}

// -1 - m: the least number has no negative of its own width, and the library no subtraction that takes it.
fn minus_one_less(m: u64) -> i64
    requires { m < 2 ^ 63 }
    ensures { result ≡ negsuc m }
{
    -1 - (m as i64)
}

// How many bytes of the key stand in t from `start`.
// Ruled out: 0 for a key that is wrong in its last byte only; the whole key where the text stops inside it.
pub fn matched(t: &[u8], start: usize, key: &[u8]) -> usize
    requires { start ≤ length t.now }
    ensures { Matched t.now start key.now result }
{
    if same(t, start, key) {
        return key.len();
    }
    agreed(t, start, key)
}

// The same, byte by byte: for a text that goes another way.
fn agreed(t: &[u8], start: usize, key: &[u8]) -> usize
    requires { start ≤ length t.now }
    ensures { Matched t.now start key.now result }
{
    for i in 0..key.len() {
        if start + i >= t.len() || t[start + i] != key[i] {
            return i;
        }
    }
    key.len()
}

// Whether the whole key stands in t from `start`. Room is tested once, and four bytes are compared as one number: `starts_with` takes a
// twelfth more instructions over the lines of an interval.
// Ruled out: true for a key whose last byte differs; true where the text stops inside the key.
fn same(t: &[u8], start: usize, key: &[u8]) -> bool
    requires { start ≤ length t.now }
    ensures { SameKey t.now start key.now result }
{
    let n = key.len();
    if t.len() - start < n {
        return false;
    }
    let mut i = 0;
    while i + 4 <= n {
        if word(t, start + i) != word(key, i) {
            return false;
        }
        i += 4;
    }
    for k in i..n {
        if t[start + k] != key[k] {
            return false;
        }
    }
    true
}

// Four bytes as one number, which a processor reads at one go.
fn word(t: &[u8], p: usize) -> u64
    requires { p + 4 ≤ length t.now }
    ensures { result ≡ word_at t.now p }
{
    t[p] as u64 + 256 * t[p + 1] as u64 + 65536 * t[p + 2] as u64 + 16777216 * t[p + 3] as u64
}

// Whether 10 v + d, which may be too large for 64 bits, is above `most`. Ruled out: the border itself; a sum that wraps.
fn exceeds(v: u64, d: u64, most: u64) -> bool
    ensures { result ≡ ltb most (10 * v + d) }
{
    if d > most {
        return true;
    }
    v > (most - d) / 10
}

// Reads an unsigned number from `least`, 0 or 1, to `most`, ended by the byte `end`, which is below the digits, and gives the place after it.
// One reader for every width: the bounds say which. Ruled out: 18446744073709551616 noticed after its last digit; 01 read as 1.
pub fn read_natural(
    t: &[u8],
    start: usize,
    least: u64,
    most: u64,
    end: u8,
) -> Result<(u64, usize), Wrong>
    requires { Asked t.now start least most end }
    ensures { NaturalIn (number (plain least most) end) t.now start result }
{
    if start >= t.len() || !t[start].is_ascii_digit() {
        return Err(Wrong { place: start });
    }
    let mut v = (t[start] - 48) as u64;
    if v < least || v > most {
        return Err(Wrong { place: start });
    }
    let next = start + 1;
    if v == 0 {
        if next < t.len() && t[next] == end {
            return Ok((0, next + 1));
        }
        return Err(Wrong { place: next });
    }
    // Below this a digit more stays within `most`, so that only a number near it is looked at closely.
    let safe = most / 10;
    for i in next..t.len() {
        let b = t[i];
        if !b.is_ascii_digit() {
            return if b == end {
                Ok((v, i + 1))
            } else {
                Err(Wrong { place: i })
            };
        }
        let d = (b - 48) as u64;
        if v >= safe && exceeds(v, d, most) {
            return Err(Wrong { place: i });
        }
        v = 10 * v + d;
    }
    Err(Wrong { place: t.len() })
}

// Reads a signed number from -`below` to `most`, ended by the byte `end`, and gives the place after it.
// Ruled out: -0 read as 0; -9223372036854775809 read at all.
pub fn read_signed(
    t: &[u8],
    start: usize,
    below: u64,
    most: u64,
    end: u8,
) -> Result<(i64, usize), Wrong>
    requires { AskedSigned t.now start below most end }
    ensures { SignedIn (number (signed below most) end) t.now start result }
{
    if start < t.len() && t[start] == 45 {
        let (v, stop) = read_natural(t, start + 1, 1, below, end)?;
        return Ok((minus_one_less(v - 1), stop));
    }
    let (v, stop) = read_natural(t, start, 0, most, end)?;
    Ok((v as i64, stop))
}

// The numbers that a line may hold, and how they are read.
pub trait Bounds: Copy {
    type Value;

    ghost range: { Self → Range };

    ghost number_of: { Self.Value → ℤ };

    ghost asked: { Self → List ℕ → ℕ → ℕ → Type 0 };

    fn read(self, t: &[u8], start: usize, end: u8) -> Result<(Self::Value, usize), Wrong>
        requires { asked self t.now start end }
        ensures { ReadIn number_of (number (range self) end) t.now start result };

    // What is asked at one place is met at any other of the text, and some number is in the range.
    ghost within: { (r : Self) (t : List ℕ) (start end : ℕ) → asked r t start end → start ≤ length t };

    ghost moved: { (r : Self) (t : List ℕ) (start later end : ℕ) → asked r t start end → later ≤ length t → asked r t later end };

    ghost some: { (r : Self) (t : List ℕ) (start end : ℕ) → asked r t start end → (z : ℤ) × Fit (range r) z };
}

// Unsigned numbers from `least`, 0 or 1, to `most`.
#[derive(Clone, Copy)]
pub struct Plain {
    pub least: u64,
    pub most: u64,
}

impl Bounds for Plain {
    type Value = u64;

    ghost range = { λ r. plain r.least r.most };

    ghost number_of = { pos };

    ghost asked = { λ r t start end. Asked t start r.least r.most end };

    ghost within = { λ r t start end a. a.within };

    ghost moved = { λ r t start later end a h. record { within = h; low = a.low; range = a.range; stop = a.stop } };

    ghost some = { λ r t start end a. (pos r.most, (a.range, Prim.search rules)) };

    fn read(self, t: &[u8], start: usize, end: u8) -> Result<(u64, usize), Wrong> {
        read_natural(t, start, self.least, self.most, end)
    }
}

// Signed numbers from -`below` to `most`.
#[derive(Clone, Copy)]
pub struct Signed {
    pub below: u64,
    pub most: u64,
}

impl Bounds for Signed {
    type Value = i64;

    ghost range = { λ r. signed r.below r.most };

    ghost number_of = { λ z. z };

    ghost asked = { λ r t start end. AskedSigned t start r.below r.most end };

    ghost within = { λ r t start end a. a.within };

    ghost moved = { λ r t start later end a h.
        record { within = h; some = a.some; negative = a.negative; positive = a.positive; stop = a.stop } };

    ghost some = { λ r t start end a. (pos 0, Prim.search rules) };

    #[inline]
    fn read(self, t: &[u8], start: usize, end: u8) -> Result<(i64, usize), Wrong> {
        read_signed(t, start, self.below, self.most, end)
    }
}

// Reads a line: the key, which ends with `=`, a number of the range and byte 10. Gives the number and the place after the line.
// Ruled out: a wrong key refused at the line's first byte; `tonnes=-` refused at the minus rather than behind it.
#[inline]
pub fn read_line<R: Bounds>(
    t: &[u8],
    start: usize,
    key: &[u8],
    range: R,
) -> Result<(R::Value, usize), Wrong>
    requires { R.asked range t.now start 10 }
    ensures { ReadIn R.number_of (line key.now (R.range range)) t.now start result }
{
    let n = matched(t, start, key);
    if n < key.len() {
        return Err(Wrong { place: start + n });
    }
    range.read(t, start + n, 10)
}
