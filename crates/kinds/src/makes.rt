//! New borders of the four kinds, told by the kind's name.
ghost use Rattle.std.specs.Prelude.{◌≡◌};
ghost use Rattle.borders.specs.Border.{Meaning};
ghost use Rattle.kinds.specs.Kinds.{plain_upper, plain_lower, cable_test, cable_formula, settlement_test, settlement_formula, given_test, given_formula, line_test, line_upper, line_lower};
ghost use Rattle.kinds.specs.Sheets.{stated_by, sheeted, idle};

use crate::{Cable, Given, Kind, Line, Settlement, Sheeted};
use borders::Border;

/// A border that is made from nothing. A method of a trait on `Border`, so that its contract can cite the make's own meaning.
pub trait Made: Border {
    ghost made: { Meaning };

    /// A new one.
    fn make() -> Self
        ensures { Self.Border.meaning result ≡ made };
}

impl<K: Kind + Default> Made for Sheeted<K> {
    // a border with the kind's test and limits, with flows and limits 0
    ghost made = { sheeted (stated_by K.Kind.test K.Kind.lowest K.Kind.highest) idle idle idle };

    fn make() -> Sheeted<K> {
        Sheeted::new(K::default())
    }
}

// Each kind's border is held to the test and the limits that are written for it.
fn new_cable() -> Sheeted<Cable>
    ensures { ⟦<Sheeted<Cable> as Border>⟧.meaning result ≡ sheeted (stated_by cable_test (plain_lower cable_formula) (plain_upper cable_formula)) idle idle idle }
{
    Sheeted::make()
}

fn new_settlement_border() -> Sheeted<Settlement>
    ensures { ⟦<Sheeted<Settlement> as Border>⟧.meaning result ≡ sheeted (stated_by settlement_test (plain_lower settlement_formula) (plain_upper settlement_formula)) idle idle idle }
{
    Sheeted::make()
}

fn new_line_border() -> Sheeted<Line>
    ensures { ⟦<Sheeted<Line> as Border>⟧.meaning result ≡ sheeted (stated_by line_test line_lower line_upper) idle idle idle }
{
    Sheeted::make()
}

fn new_given_border() -> Sheeted<Given>
    ensures { ⟦<Sheeted<Given> as Border>⟧.meaning result ≡ sheeted (stated_by given_test (plain_lower given_formula) (plain_upper given_formula)) idle idle idle }
{
    Sheeted::make()
}
