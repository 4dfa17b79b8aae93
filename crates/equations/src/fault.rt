//! The ground on which figures are refused, and what a fault tells.
ghost use Rattle.std.specs.Prelude.{◌≡◌};
ghost use Rattle.equations.specs.Grounds.{told};

/// What a fault tells: the number of its ground, the place (0 where none is named) and the period (0 where none).
#[derive(Clone, Copy, PartialEq, Eq, Debug)]
pub struct Told {
    pub number: u8,
    pub place: i32,
    pub period: i32,
}

/// Ground 7: deviations or reserve rows out of their bounds.
#[derive(Clone, Copy, PartialEq, Eq, Debug)]
pub enum FigureFault {
    /// Their count, or the down-regulation, which are judged first.
    Overall,
    /// The first deviation or source out of its bounds, counted from 1.
    Entry(u16),
}

impl FigureFault {
    /// The number of the ground, the place and the period.
    pub fn told(&self) -> Told
        ensures { result ≡ told self.now }
    {
        let place = match self {
            FigureFault::Overall => 0,
            FigureFault::Entry(place) => i32::from(*place),
        };
        Told {
            number: 7,
            place,
            period: 0,
        }
    }
}
