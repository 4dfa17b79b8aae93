//! A ramp over any border: no take and no adoption moves a period further than its rate from a neighbouring one.
ghost use Rattle.std.specs.Prelude.{◌≡◌, pos, ◌≤ℤ◌, MatchResult};
ghost use Rattle.equations.specs.Ranges.{between, Near};
ghost use Rattle.borders.specs.Limits.{Rate, rate_told, step_within, ahead_by, left_by};
ghost use Rattle.borders.specs.Border.{ramped, Meaning};
ghost use Rattle.borders.specs.Ramps.{ramped_limited, can_below, test_over};
ghost use Rattle.borders.specs.Eased.{ramp_eased};

use crate::{Border, BorderFault, Sheet};
use equations::{Direction, Told};

/// A ramp over a border, itself a border. Its rate is 1 to 20,000.
#[derive(Drop)]
pub struct Ramp<B> {
    rate: i32,
    below: B,
    ghost allowed: { Rate rate },
}

/// Ground 8: a rate that no ramp may have. The border that it was to stand over comes back.
#[derive(Drop)]
pub struct RateRefused<B> {
    pub below: B,
}

impl<B> RateRefused<B> {
    /// The number of the ground, the place and the period.
    pub fn told(&self) -> Told
        ensures { result ≡ rate_told }
    {
        Told {
            number: 8,
            place: 0,
            period: 0,
        }
    }
}

/// A border that stands over another and caps its limits by a rate. A trait on `Border`, so that the maker's contract can cite the make's own meaning.
pub trait Over<B: Border>: Border {
    /// A ramp over a border, or the refusal of its rate.
    fn new(rate: i32, below: B) -> Result<Self, RateRefused<B>>
        ensures { MatchResult result
            (λ b. Rate rate × (Self.Border.meaning b ≡ ramped rate (B.Border.meaning below)))
            (λ e. (Rate rate → ⊥) × (e.below ≡ below)) };
}

impl<B: Border> Over<B> for Ramp<B> {
    fn new(rate: i32, below: B) -> Result<Ramp<B>, RateRefused<B>> {
        if !(1..=20_000).contains(&rate) {
            return Err(RateRefused { below });
        }
        Ok(Ramp { rate, below })
    }
}

// Whether a number lies from a low one to a high one, both included.
fn lies(low: i64, x: i64, high: i64) -> bool
    ensures { result ≡ between low x high }
{
    (low..=high).contains(&x)
}

// Whether a period is one of a day's.
fn in_day(periods: i32, period: i32) -> bool
    ensures { result ≡ between (pos 1) period periods }
{
    lies(1, i64::from(period), i64::from(periods))
}

impl<B: Border> Ramp<B> {
    // Whether a step from one flow to the next, up or down, is no larger than the rate.
    fn step_fits(&self, before: i32, after: i32) -> bool
        ensures { result ≡ step_within self.now.rate before after }
    {
        let rate = i64::from(self.rate);
        lies(-rate, i64::from(after) - i64::from(before), rate)
    }

    // How far the flow of period q lies ahead of that of another period, in a direction.
    fn ahead(&self, direction: Direction, period: i32, q: i32) -> i32
        ensures value { result ≡ ahead_by direction (B.Border.meaning self.now.below).schedule period q }
        ensures near { Near 60000 result }
    {
        match direction {
            Direction::Forward => self.below.flow(q) - self.below.flow(period),
            Direction::Backward => self.below.flow(period) - self.below.flow(q),
        }
    }

    // What the neighbour q leaves of a margin of a period: no more than the rate and how far its flow lies ahead.
    fn left(&self, direction: Direction, period: i32, q: i32, margin: i32) -> i32
        ensures { result ≡ left_by self.now.rate direction (B.Border.meaning self.now.below).schedule period q margin }
    {
        if !in_day(self.below.periods(), q) {
            return margin;
        }
        margin.min(self.rate + self.ahead(direction, period, q))
    }
}

impl<B: Border> Border for Ramp<B> {
    ghost meaning = { λ b. ramped b.rate (B.Border.meaning b.below) };

    ghost known = { λ b.
        let below : Meaning = B.Border.meaning b.below in
        let k = B.Border.known b.below in
        record {
          day_some = k.day_some;
          day_short = k.day_short;
          flows_within = k.flows_within;
          limits_within = λ s p w day. ramped_limited b.rate s p (below.lower s p) (below.upper s p) b.allowed.0 w (k.limits_within s p w day);
          take_eases = λ p m q can day. ramp_eased b.rate below p m q can day (k.take_eases p m q (can_below b.rate below p m can) day);
          test_stated = λ t s p. test_over b.rate below t s p below.stated (k.test_stated t s p);
        } };

    fn periods(&self) -> i32 {
        self.below.periods()
    }

    fn flow(&self, period: i32) -> i32 {
        self.below.flow(period)
    }

    fn margin(&self, direction: Direction, period: i32) -> i32 {
        if !in_day(self.below.periods(), period) {
            return 0;
        }
        let margin = self.below.margin(direction, period);
        let margin = self.left(direction, period, period - 1, margin);
        self.left(direction, period, period + 1, margin)
    }

    fn passes(&self, sheet: &Sheet, period: i32) -> bool {
        self.below.passes(sheet, period)
    }

    fn admits(&self, schedule: &[i32]) -> bool {
        self.below.admits(schedule)
            && schedule
                .iter()
                .zip(schedule.iter().skip(1))
                .all(|(before, after)| self.step_fits(*before, *after))
    }

    fn take(&mut self, period: i32, m: i32) -> Result<(), BorderFault> {
        self.may_take(period, m)?;
        self.below.take(period, m)
    }

    fn adopt(&mut self, schedule: &[i32]) -> Result<(), BorderFault> {
        if !self.admits(schedule) {
            return Err(BorderFault::Adopt);
        }
        self.below.adopt(schedule)
    }

    fn reassess(&mut self, sheet: &Sheet, period: i32) -> Result<(), BorderFault> {
        self.below.reassess(sheet, period)
    }
}
