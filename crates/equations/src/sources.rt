//! The reserve that a line's capacity may count on.
ghost use Rattle.std.specs.Prelude.{◌≡◌, ◌≤◌, true, length, pos, ◌≤ℤ◌};
ghost use Rattle.std.specs.List.{prefix_len};
ghost use Rattle.equations.specs.Grounds.{Judged, refused_at};
ghost use Rattle.equations.specs.Reserves.{source_allowed, reserve_refused, total_power_lem, serving, coefficient, weighed, reserve_of};

use crate::FigureFault;

/// A source of reserve: its power P in MW, and its coefficients in hundredths, one for each row.
#[derive(Clone, Copy)]
pub struct Source {
    pub power: i32,
    pub row100: i32,
    pub row50: i32,
    pub row0: i32,
}

impl Source {
    // Whether each of its numbers is within its bounds.
    fn in_bounds(&self) -> bool
        ensures { result ≡ source_allowed self.now }
    {
        matches!(
            self,
            Source {
                power: 0..=5_000,
                row100: 0..=100,
                row50: 0..=100,
                row0: 0..=100,
            }
        )
    }

    // Its coefficient in a row.
    fn coefficient(&self, row: Row) -> i32
        ensures { result ≡ coefficient row self.now }
    {
        match row {
            Row::Hundred => self.row100,
            Row::Fifty => self.row50,
            Row::Zero => self.row0,
        }
    }
}

/// A row of coefficients, by how much of the sources' power the down-regulation covers.
#[derive(Clone, Copy)]
pub enum Row {
    Hundred,
    Fifty,
    Zero,
}

// The row that serves.
fn row_for(power: i32, regulation: i32) -> Row
    requires { (pos 0 ≤ℤ regulation) × (regulation ≤ℤ pos 5000) }
    ensures { result ≡ serving power regulation }
{
    if regulation >= power {
        Row::Hundred
    } else if 2 * regulation >= power {
        Row::Fifty
    } else {
        Row::Zero
    }
}

// The power of all sources; the first one out of its bounds is refused.
fn total_power(sources: &[Source]) -> Result<i32, FigureFault>
    requires { length sources.now ≤ 8 }
    ensures { Judged (refused_at true source_allowed sources.now) (λ p. p ≡ total_power_lem sources.now) result }
{
    let mut power: i32 = 0;
    for (i, source) in sources.iter().enumerate() {
        if !source.in_bounds() {
            return Err(FigureFault::Entry((i + 1) as u16));
        }
        power += source.power;
    }
    Ok(power)
}

// The sum of coefficient times power, over all sources.
fn weigh(sources: &[Source], row: Row) -> i32
    requires few { length sources.now ≤ 8 }
    requires allowed { prefix_len source_allowed sources.now ≡ length sources.now }
    ensures value { result ≡ weighed row sources.now }
    ensures least { pos 0 ≤ℤ result }
{
    let mut sum: i32 = 0;
    for source in sources {
        sum += source.coefficient(row) * source.power;
    }
    sum
}

/// The reserve of up to 8 sources under a down-regulation, in MW, rounded down once.
pub fn reserve(sources: &[Source], regulation: i32) -> Result<i32, FigureFault>
    ensures { Judged (reserve_refused sources.now regulation) (λ x. x ≡ reserve_of sources.now regulation) result }
{
    if sources.len() > 8 || !(0..=5_000).contains(&regulation) {
        return Err(FigureFault::Overall);
    }
    let power = total_power(sources)?;
    let row = row_for(power, regulation);
    Ok(weigh(sources, row) / 100)
}
