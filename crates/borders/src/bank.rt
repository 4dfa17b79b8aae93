//! The bank: borders of different makes by value, in nested pairs, told by number from 1.
ghost use Rattle.std.specs.Prelude.{◌≡◌, ℕ, min, List, [], ◌∷◌, length, ℤ, pos, IsTrue, ◌↔◌};
ghost use Rattle.borders.specs.Border.{Meaning, flow_of, margin_in, passing, Admitted};
ghost use Rattle.borders.specs.Answers.{MayTake, MayAdopt, MayReassess, TakeAnswer, AdoptAnswer, ReassessAnswer};
ghost use Rattle.borders.specs.Laws.{Known, AllKnown};
ghost use Rattle.borders.specs.Bank.{border_at, OthersStay, own_answer, Named};

use crate::{Border, BorderFault, Sheet};
use equations::Direction;

/// A refusal of a border in the bank: its number, the period of the call (0 for an adoption), and the border's own refusal whole.
#[derive(Clone, Copy, PartialEq, Eq, Debug)]
pub struct BankFault {
    pub border: usize,
    pub period: i32,
    pub cause: BorderFault,
}

// The refusal of a border with its number and the period.
fn numbered(border: usize, period: i32, answer: Result<(), BorderFault>) -> Result<(), BankFault>
    ensures own { own_answer result ≡ answer }
    ensures named { Named border period result }
{
    answer.map_err(|cause| BankFault {
        border,
        period,
        cause,
    })
}

/// Borders told by number from 1. A call on a number is that border's own call and leaves the others as they are;
/// a number without a border answers as a border without periods.
pub trait Bank {
    ghost borders: { Self → List Meaning };

    /// How many borders there are, 100 standing for more too.
    fn count(&self) -> usize
        ensures { result ≡ min 100 (length (borders self.now)) };

    fn periods(&self, border: usize) -> i32
        ensures { result ≡ pos (length (border_at (borders self.now) border).schedule) };

    fn flow(&self, border: usize, period: i32) -> i32
        ensures { result ≡ flow_of (border_at (borders self.now) border) period };

    fn margin(&self, border: usize, direction: Direction, period: i32) -> i32
        ensures { result ≡ margin_in (border_at (borders self.now) border) direction period };

    fn passes(&self, border: usize, sheet: &Sheet, period: i32) -> bool
        ensures { result ≡ passing (border_at (borders self.now) border) sheet.now period };

    fn admits(&self, border: usize, schedule: &[i32]) -> bool
        ensures { IsTrue result ↔ Admitted (border_at (borders self.now) border) schedule.now };

    fn may_take_at(&self, border: usize, period: i32, m: i32) -> Result<(), BorderFault>
        ensures { MayTake (border_at (borders self.now) border) period m result };

    fn take_at(&mut self, border: usize, period: i32, m: i32) -> Result<(), BorderFault>
        ensures own { TakeAnswer (border_at (borders self.old) border) period m result (border_at (borders self.new) border) }
        ensures others { OthersStay border (borders self.old) (borders self.new) };

    fn adopt_at(&mut self, border: usize, schedule: &[i32]) -> Result<(), BorderFault>
        ensures own { AdoptAnswer (border_at (borders self.old) border) schedule.now result (border_at (borders self.new) border) }
        ensures others { OthersStay border (borders self.old) (borders self.new) };

    fn reassess_at(&mut self, border: usize, sheet: &Sheet, period: i32) -> Result<(), BorderFault>
        ensures own { ReassessAnswer (border_at (borders self.old) border) sheet.now period result (border_at (borders self.new) border) }
        ensures others { OthersStay border (borders self.old) (borders self.new) };

    /// Whether a border may take m, or its refusal with its number and the period.
    fn may_take(&self, border: usize, period: i32, m: i32) -> Result<(), BankFault>
        ensures own { MayTake (border_at (borders self.now) border) period m (own_answer result) }
        ensures named { Named border period result }
    {
        numbered(border, period, self.may_take_at(border, period, m))
    }

    /// Whether a border would adopt a schedule, or its refusal with its number.
    fn may_adopt(&self, border: usize, schedule: &[i32]) -> Result<(), BankFault>
        ensures own { MayAdopt (border_at (borders self.now) border) schedule.now (own_answer result) }
        ensures named { Named border (pos 0) result }
    {
        let answer = if self.admits(border, schedule) {
            Ok(())
        } else {
            Err(BorderFault::Adopt)
        };
        numbered(border, 0, answer)
    }

    /// Whether a border would accept a sheet for a period now, or its refusal with its number and the period.
    fn may_reassess(&self, border: usize, sheet: &Sheet, period: i32) -> Result<(), BankFault>
        ensures own { MayReassess (border_at (borders self.now) border) sheet.now period (own_answer result) }
        ensures named { Named border period result }
    {
        let answer = if self.passes(border, sheet, period) {
            Ok(())
        } else {
            Err(BorderFault::Reassess)
        };
        numbered(border, period, answer)
    }

    fn take(&mut self, border: usize, period: i32, m: i32) -> Result<(), BankFault>
        ensures own { TakeAnswer (border_at (borders self.old) border) period m (own_answer result) (border_at (borders self.new) border) }
        ensures others { OthersStay border (borders self.old) (borders self.new) }
        ensures named { Named border period result }
    {
        numbered(border, period, self.take_at(border, period, m))
    }

    fn adopt(&mut self, border: usize, schedule: &[i32]) -> Result<(), BankFault>
        ensures own { AdoptAnswer (border_at (borders self.old) border) schedule.now (own_answer result) (border_at (borders self.new) border) }
        ensures others { OthersStay border (borders self.old) (borders self.new) }
        ensures named { Named border (pos 0) result }
    {
        numbered(border, 0, self.adopt_at(border, schedule))
    }

    fn reassess(&mut self, border: usize, sheet: &Sheet, period: i32) -> Result<(), BankFault>
        ensures own { ReassessAnswer (border_at (borders self.old) border) sheet.now period (own_answer result) (border_at (borders self.new) border) }
        ensures others { OthersStay border (borders self.old) (borders self.new) }
        ensures named { Named border period result }
    {
        numbered(border, period, self.reassess_at(border, sheet, period))
    }

    // each keeps the laws of a border
    ghost known: { (b : Self) → AllKnown (borders b) };
}

/// The empty end of a bank.
#[derive(Clone, Copy)]
pub struct NoBorders;

/// A border and the borders after it.
#[derive(Drop)]
pub struct Pair<B, R> {
    pub first: B,
    pub rest: R,
}

impl Bank for NoBorders {
    ghost borders = { λ _. [] };

    ghost known = { λ _. tt };

    fn count(&self) -> usize {
        0
    }

    fn periods(&self, _border: usize) -> i32 {
        0
    }

    fn flow(&self, _border: usize, _period: i32) -> i32 {
        0
    }

    fn margin(&self, _border: usize, _direction: Direction, _period: i32) -> i32 {
        0
    }

    fn passes(&self, _border: usize, _sheet: &Sheet, _period: i32) -> bool {
        false
    }

    fn admits(&self, _border: usize, _schedule: &[i32]) -> bool {
        false
    }

    fn may_take_at(&self, _border: usize, _period: i32, _m: i32) -> Result<(), BorderFault> {
        Err(BorderFault::Take(0))
    }

    fn take_at(&mut self, _border: usize, _period: i32, _m: i32) -> Result<(), BorderFault> {
        Err(BorderFault::Take(0))
    }

    fn adopt_at(&mut self, _border: usize, _schedule: &[i32]) -> Result<(), BorderFault> {
        Err(BorderFault::Adopt)
    }

    fn reassess_at(
        &mut self,
        _border: usize,
        _sheet: &Sheet,
        _period: i32,
    ) -> Result<(), BorderFault> {
        Err(BorderFault::Reassess)
    }
}

// The borders after the first are numbered from 1 again; 0 stays 0 to the end of the bank, where no border has it.
impl<B: Border, R: Bank> Bank for Pair<B, R> {
    ghost borders = { λ b. B.Border.meaning b.first ∷ R.Bank.borders b.rest };

    ghost known = { λ b. (B.Border.known b.first, R.Bank.known b.rest) };

    fn count(&self) -> usize {
        (self.rest.count() + 1).min(100)
    }

    fn periods(&self, border: usize) -> i32 {
        if border == 1 {
            return self.first.periods();
        }
        self.rest.periods(border.saturating_sub(1))
    }

    fn flow(&self, border: usize, period: i32) -> i32 {
        if border == 1 {
            return self.first.flow(period);
        }
        self.rest.flow(border.saturating_sub(1), period)
    }

    fn margin(&self, border: usize, direction: Direction, period: i32) -> i32 {
        if border == 1 {
            return self.first.margin(direction, period);
        }
        self.rest
            .margin(border.saturating_sub(1), direction, period)
    }

    fn passes(&self, border: usize, sheet: &Sheet, period: i32) -> bool {
        if border == 1 {
            return self.first.passes(sheet, period);
        }
        self.rest.passes(border.saturating_sub(1), sheet, period)
    }

    fn admits(&self, border: usize, schedule: &[i32]) -> bool {
        if border == 1 {
            return self.first.admits(schedule);
        }
        self.rest.admits(border.saturating_sub(1), schedule)
    }

    fn may_take_at(&self, border: usize, period: i32, m: i32) -> Result<(), BorderFault> {
        if border == 1 {
            return self.first.may_take(period, m);
        }
        self.rest.may_take_at(border.saturating_sub(1), period, m)
    }

    fn take_at(&mut self, border: usize, period: i32, m: i32) -> Result<(), BorderFault> {
        if border == 1 {
            return self.first.take(period, m);
        }
        self.rest.take_at(border.saturating_sub(1), period, m)
    }

    fn adopt_at(&mut self, border: usize, schedule: &[i32]) -> Result<(), BorderFault> {
        if border == 1 {
            return self.first.adopt(schedule);
        }
        self.rest.adopt_at(border.saturating_sub(1), schedule)
    }

    fn reassess_at(
        &mut self,
        border: usize,
        sheet: &Sheet,
        period: i32,
    ) -> Result<(), BorderFault> {
        if border == 1 {
            return self.first.reassess(sheet, period);
        }
        self.rest
            .reassess_at(border.saturating_sub(1), sheet, period)
    }
}
