//! A region and the calls on it.
use crate::kept::KeptZones;
use book::State;
pub use making::Unmade;

mod adopting;
mod asking;
mod calls;
mod day;
mod judging;
mod making;
mod sheets;

/// A region for one delivery day, over a bank of borders of any makes.
#[derive(Drop)]
pub struct Region<B> {
    kept: KeptZones,
    bank: B,
    state: State,
}
