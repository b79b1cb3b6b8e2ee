// Window statistics, proved once over n and z2. Callers cite the names of specs/Window.antt and the laws of proofs/Laws.antt.
#![tactic(auto)]

ghost use Rattle.std.specs.Prelude.{◌≤◌, ◌≡◌, ◌++◌, length};
ghost use Rattle.protocol.specs.Ranges.{flow_most};
ghost use Rattle.drainage_window.specs.Window.{tally_of, mean_of, meets, limit_of, mean_width, width95, z95};
ghost use Rattle.drainage_window.specs.Sizes.{Low, Windows, Sized};

// The entries of each window of a gap, by what is taken of their values: the mean, the 90 % limit, the 95 % limit.
pub const MEAN_WIDTH: usize = 16;

pub const WIDTH_90: usize = 96;

pub const WIDTH_95: usize = 288;

// The values of both windows of the mean.
const MEAN_VALUES: u32 = 32;

// z2 of the two limits, in hundredths.
pub const Z90: u64 = 271;

pub const Z95: u64 = 385;

#[derive(Clone, Copy)]
pub struct Tally {
    pub n: u64,
    pub sum: u64,
    pub squares: u64,
}

impl Tally {
    // Count, sum and sum of squares of one window.
    fn of_one(part: &[u16]) -> Tally
        requires { (length part.now ≤ width95) × Low flow_most part.now }
        ensures { result ≡ tally_of part.now }
    {
        let mut sum: u64 = 0;
        let mut squares: u64 = 0;
        for value in part {
            let v = *value as u64;
            sum += v;
            squares += v * v;
        }
        Tally {
            n: part.len() as u64,
            sum,
            squares,
        }
    }

    // Count, sum and sum of squares of the window before and the window after. Ruled out: one window taken twice; the sums in
    // place of the sums of squares.
    pub fn of(before: &[u16], after: &[u16]) -> Tally
        requires { Windows before.now after.now }
        ensures { (result ≡ tally_of (before.now ++ after.now)) × Sized result }
    {
        let a = Tally::of_one(before);
        let b = Tally::of_one(after);
        Tally {
            n: a.n + b.n,
            sum: a.sum + b.sum,
            squares: a.squares + b.squares,
        }
    }

    // The mean, rounded down. Ruled out: rounded to the nearest; the mean of the sums of squares.
    pub fn mean(self) -> u64
        requires { Sized self }
        ensures { result ≡ mean_of self }
    {
        self.sum / self.n
    }

    // Whether l meets the limit's condition.
    fn meets_at(self, z: u64, l: u64) -> bool
        requires { Sized self × (z ≤ z95) × (l ≤ flow_most) }
        ensures { result ≡ meets self z l }
    {
        let n = self.n;
        let sum = self.sum;
        if sum < n * l {
            return false;
        }
        let left = sum - n * l;
        z * (n * self.squares) <= z * (sum * sum) + 100 * ((n - 1) * (left * left))
    }

    // The lower limit for z2 in hundredths, by halving. Ruled out: the least number that does not meet the condition (rounded
    // up); the inequality reversed at equality; n in the place of n - 1, as for a whole population.
    pub fn limit(self, z: u64) -> u64
        requires { Sized self × (z ≤ z95) }
        ensures { result ≡ limit_of self z }
    {
        // low meets the condition or is 0, high does not meet it; halving counts no index, so it is no `for`
        let mut low = 0;
        let mut high = self.mean() + 1;
        while low + 1 < high {
            let middle = low + (high - low) / 2;
            if self.meets_at(z, middle) {
                low = middle;
            } else {
                high = middle;
            }
        }
        low
    }
}

// The mean of two windows of 16, rounded down: no squares, and a division by 32. Ruled out: one window taken twice; the mean of 16.
pub fn mean_of_32(before: &[u16], after: &[u16]) -> u64
    requires { (length before.now ≡ mean_width) × (length after.now ≡ mean_width) × Low flow_most before.now × Low flow_most after.now }
    ensures { (result ≡ mean_of (tally_of (before.now ++ after.now))) × (result ≤ flow_most) }
{
    let mut sum: u32 = 0;
    for i in 0..MEAN_WIDTH {
        sum += before[i] as u32 + after[i] as u32;
    }
    (sum / MEAN_VALUES) as u64
}
