//! What a region keeps of its zones: one record for each zone and period.
ghost use Rattle.std.specs.Prelude.{◌≡◌, ◌<◌, length, replicate, slice_index_or, slice_set};
ghost use Rattle.std.specs.Fn.{FnOnceReturnsAtMut};
ghost use Rattle.book.specs.declared.ZoneRecord.{ZoneRecord as Kept};
ghost use Rattle.book.specs.Views.{Period, slot as slot_of, record_in, blank};

use book::{PERIOD_COUNT, ZoneRecord};
use zones::MOST_ZONES;

// How many records there are: one for each period of each zone that there may be.
const RECORDS: usize = MOST_ZONES * PERIOD_COUNT;

/// A zone and a period of the day, of which a table has a record.
#[derive(Clone, Copy)]
pub(crate) struct Slot {
    pub(crate) zone: usize,
    pub(crate) period: i32,
    ghost few: { zone < 16 },
    ghost in_day: { Period period },
}

impl Slot {
    // Where the record stands.
    fn index(self) -> usize
        ensures value { result ≡ slot_of self.zone self.period }
        ensures within { result < 384 }
    {
        self.zone * PERIOD_COUNT + (self.period - 1) as usize
    }
}

/// One record for each zone and period.
#[derive(Clone, Copy)]
pub struct ZoneTable {
    records: [ZoneRecord; RECORDS],
}

impl ZoneTable {
    /// A table without limits, all positions 0.
    pub fn new() -> ZoneTable
        ensures { result.records ≡ replicate 384 blank }
    {
        let blank = ZoneRecord {
            staged: 0,
            limit: None,
        };
        ZoneTable {
            records: [blank; RECORDS],
        }
    }

    pub(crate) fn at(&self, slot: Slot) -> ZoneRecord
        ensures { result ≡ record_in self.now.records slot.zone slot.period }
    {
        self.records[slot.index()]
    }

    // Lends the record of a zone and period, to be changed in place; all others stay.
    pub(crate) fn change<F: FnOnce(&mut ZoneRecord)>(&mut self, slot: Slot, f: F)
        requires { F.IsAlwaysCallable f }
        ensures many { length self.old.records ≡ 384 }
        ensures changed { (kept : Kept)
            × FnOnceReturnsAtMut F.FnOnce f (record_in self.old.records slot.zone slot.period) tt kept
            × (self.new.records ≡ slice_set self.old.records (slot_of slot.zone slot.period) kept) }
    {
        let i = slot.index();
        let record = &mut self.records[i];
        f(record);
    }
}
