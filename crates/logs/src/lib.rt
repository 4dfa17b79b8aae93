//! A log: plain records in memory that the caller lends, in order of entry.
#![tactic(auto)]

ghost use Rattle.std.specs.Prelude.{◌≡◌, ◌≤◌, [], length};
ghost use Rattle.logs.specs.Entries.{capacity_of, record_at};

/// The most records that a log keeps, however long the memory is.
pub const MOST: usize = 65_536;

/// The records entered so far. What lies beyond them in the caller's memory stays, but for the place that a new record takes.
#[derive(Drop)]
pub struct Log<'a, T> {
    slots: &'a mut [T],
    count: usize,
    ghost within: { count ≤ length slots.now },
    ghost few: { count ≤ 65536 },
}

/// There is no place left for a record.
#[derive(Clone, Copy, PartialEq, Eq, Debug)]
pub struct LogFull;

impl<'a, T: Copy> Log<'a, T> {
    ghost use Rattle.logs.specs.Logs.{memory, records, SameMemory, Entered, Changed};

    /// An empty log in the memory given.
    pub fn new(slots: &'a mut [T]) -> Log<'a, T>
        ensures empty { (records result ≡ []) × (memory result ≡ slots.old) }
        ensures lent { result.slots.ghost_name ≡ slots.entry.ghost_name }
    {
        Log { slots, count: 0 }
    }

    /// How many records there are.
    pub fn count(&self) -> usize
        ensures { result ≡ length (records self.now) }
    {
        self.count
    }

    /// How many records there is place for in all.
    pub fn capacity(&self) -> usize
        ensures { result ≡ capacity_of (memory self.now) }
    {
        self.slots.len().min(MOST)
    }

    /// Enters a record as the last, and tells the new count; refused where there is no place left.
    pub fn enter(&mut self, item: T) -> Result<usize, LogFull>
        ensures answer { Entered self.old item result self.new }
        ensures lent { SameMemory self.old self.new }
    {
        let n = self.count;
        if n >= self.capacity() {
            return Err(LogFull);
        }
        self.slots[n] = item;
        self.count = n + 1;
        Ok(n + 1)
    }

    /// The record with a number, counted from 1; none where there is no such record.
    pub fn read(&self, number: usize) -> Option<T>
        ensures { result ≡ record_at (records self.now) number }
    {
        self.slots[..self.count]
            .get(number.checked_sub(1)?)
            .copied()
    }

    /// Puts a record in the place of the one with a number, and tells whether there is one.
    #[tactic(auto, using(crate::proofs::Kept::kept))]
    pub fn change(&mut self, number: usize, item: T) -> bool
        ensures answer { Changed self.old number item result self.new }
        ensures lent { SameMemory self.old self.new }
    {
        let found = (1..=self.count).contains(&number);
        if found {
            self.slots[number - 1] = item;
        }
        found
    }
}
