//! The margin of deviations between planned and actual flows.
ghost use Rattle.std.specs.Prelude.{◌≡◌, pos, ◌-ℤ◌, ◌*ℤ◌, ◌≤ℤ◌, MatchBool, MatchOption};
ghost use Rattle.std.proofs.Props.{props};
ghost use Rattle.equations.specs.Ranges.{Near};
ghost use Rattle.equations.specs.Margins.{excess, spread, square_bound_lem, Reached, Margin, SumsInRange, AllowedSums, MarginOf, margin_refused};
ghost use Rattle.equations.specs.Grounds.{Judged};

use crate::FigureFault;

/// What is summed over deviations: how many there are, their sum and the sum of their squares.
#[derive(Clone, Copy, PartialEq, Eq, Debug)]
pub struct Sums {
    pub count: i64,
    pub sum: i64,
    pub squares: i64,
}

impl Sums {
    // Whether the count is one that deviations may have, and both sums lie within what so many of them come to.
    fn are_in_range(&self) -> bool
        ensures { MatchBool result (SumsInRange self.now.count self.now.sum self.now.squares) (SumsInRange self.now.count self.now.sum self.now.squares → ⊥) }
    {
        if !(2..=44_640).contains(&self.count) {
            return false;
        }
        let most = 2_000 * self.count;
        (-most..=most).contains(&self.sum) && (0..=2_000 * most).contains(&self.squares)
    }

    // Whether these numbers keep the bounds that the sums of deviations keep.
    fn are_allowed(&self) -> bool
        ensures { MatchBool result (AllowedSums self.now.count self.now.sum self.now.squares) (AllowedSums self.now.count self.now.sum self.now.squares → ⊥) }
    {
        self.are_in_range() && self.sum * self.sum <= self.count * self.squares
    }

    /// The margin of deviations with these sums; none where they break a bound that the sums of deviations keep.
    pub fn margin(&self) -> Option<i32>
        ensures { MatchOption result (AllowedSums self.now.count self.now.sum self.now.squares → ⊥) (λ t. AllowedSums self.now.count self.now.sum self.now.squares × Margin self.now.count self.now.sum self.now.squares t) }
    {
        if !self.are_allowed() {
            return None;
        }
        Some(Allowed { sums: *self }.margin())
    }
}

// Sums that keep the bounds which the sums of deviations keep.
#[derive(Clone, Copy)]
struct Allowed {
    sums: Sums,
    ghost kept: { AllowedSums sums.count sums.sum sums.squares } by { Prim.hlevel props },
}

// Twice t less 1: twice the least number that rounds to t.
fn doubled_edge(t: i32) -> i32
    requires { Near 10000 t }
    ensures { result ≡ pos 2 *ℤ t -ℤ pos 1 }
{
    2 * t - 1
}

impl Allowed {
    // Four times the summed squared distances from the mean, times their count.
    fn spread(&self) -> i64
        ensures value { result ≡ spread self.now.sums.count self.now.sums.sum self.now.sums.squares }
        ensures near { (pos 0 ≤ℤ result) × (result ≤ℤ pos 40000000000000000) }
    {
        let product = self.sums.count * self.sums.squares;
        4 * (product - self.sums.sum * self.sums.sum)
    }

    // What summed squares are divided by: one fewer than the count.
    fn divisor(&self) -> i64
        ensures { result ≡ self.now.sums.count -ℤ pos 1 }
    {
        self.sums.count - 1
    }

    // What the square of an excess may come to: V, and the part of it that n - 1 gives, rounded down.
    fn square_bound(&self) -> i64
        ensures { result ≡ square_bound_lem self.now.sums.count self.now.sums.sum self.now.sums.squares }
    {
        let spread = self.spread();
        spread + spread / self.divisor()
    }

    // How far (2 t - 1) n lies above 2 S.
    fn excess(&self, t: i32) -> i64
        requires { Near 10000 t }
        ensures value { result ≡ excess self.now.sums.count self.now.sums.sum t }
        ensures near { Near 2000000000 result }
    {
        i64::from(doubled_edge(t)) * self.sums.count - 2 * self.sums.sum
    }

    // Whether a whole t does not pass the margin.
    fn reaches(&self, bound: i64, t: i32) -> bool
        requires { Near 10000 t }
        ensures { MatchBool result (Reached self.now.sums.count self.now.sums.sum bound t) (Reached self.now.sums.count self.now.sums.sum bound t → ⊥) }
    {
        let over = self.excess(t);
        over <= 0 || over * over <= bound
    }

    // The greatest whole t that is reached: -2,000 is, 6,192 is not, and the width between is halved until it is 1.
    fn margin(&self) -> i32
        ensures { Margin self.now.sums.count self.now.sums.sum self.now.sums.squares result }
    {
        let bound = self.square_bound();
        let mut low = -2_000;
        let mut width = 8_192;
        while width > 1 {
            let half = width / 2;
            if self.reaches(bound, low + half) {
                low += half;
                width -= half;
            } else {
                width = half;
            }
        }
        low
    }
}

/// The margin of 2 to 44,640 deviations, each within ±2,000 MW.
pub fn margin(deviations: &[i32]) -> Result<i32, FigureFault>
    ensures { Judged (margin_refused deviations.now) (MarginOf deviations.now) result }
{
    let count = deviations.len();
    if !(2..=44_640).contains(&count) {
        return Err(FigureFault::Overall);
    }
    let mut sum: i64 = 0;
    let mut squares: i64 = 0;
    for (i, deviation) in deviations.iter().enumerate() {
        if !(-2_000..=2_000).contains(deviation) {
            return Err(FigureFault::Entry((i + 1) as u16));
        }
        let d = i64::from(*deviation);
        sum += d;
        squares += d * d;
    }
    let sums = Sums {
        count: count as i64,
        sum,
        squares,
    };
    Ok(Allowed { sums }.margin())
}
