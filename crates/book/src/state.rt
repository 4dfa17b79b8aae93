//! The states of a day.
ghost use Rattle.std.specs.Prelude.{◌≡◌, IsTrue, ◌↔◌};
ghost use Rattle.book.specs.States.{state_after, OpenWithResult, open_capacity};

use crate::Call;

/// The state of a delivery day. It starts in `Drafting`.
#[derive(Clone, Copy, PartialEq, Eq, Debug)]
pub enum State {
    Drafting,
    Offered,
    Matched,
    Waiting,
    Trading,
    Closed,
}

impl State {
    /// Whether a day-ahead result has been adopted and the day is still open.
    pub fn has_result(self) -> bool
        ensures { IsTrue result ↔ OpenWithResult self }
    {
        matches!(self, State::Matched | State::Trading)
    }

    /// What may be traded of a margin: 0 if it is negative, and 0 in `Waiting` and `Closed`.
    pub fn open(self, margin: i32) -> i32
        ensures { result ≡ open_capacity self margin }
    {
        match self {
            State::Waiting | State::Closed => 0,
            _ => margin.max(0),
        }
    }

    /// The state after a call, if the call is allowed in this one.
    pub fn after(self, call: &Call) -> Option<State>
        ensures { result ≡ state_after self call.now }
    {
        match (self, call) {
            (State::Offered | State::Closed, Call::Sheet { .. } | Call::Limit { .. }) => None,
            (_, Call::Sheet { .. } | Call::Limit { .. }) => Some(self),
            (State::Offered | State::Waiting, Call::Position { .. }) => Some(self),
            (State::Drafting, Call::Offer) => Some(State::Offered),
            (State::Offered, Call::Adopt) => Some(State::Matched),
            (State::Waiting, Call::Adopt) => Some(State::Trading),
            (State::Offered, Call::Gate) => Some(State::Waiting),
            (State::Matched, Call::Gate) => Some(State::Trading),
            (State::Waiting | State::Trading, Call::End) => Some(State::Closed),
            (_, Call::AskBorder { .. } | Call::AskZone { .. }) => Some(self),
            _ => None,
        }
    }
}
