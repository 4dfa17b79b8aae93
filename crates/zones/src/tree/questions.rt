//! Questions to the tree.
ghost use Rattle.std.specs.Prelude.{◌≡◌, ◌<◌, ◌≤◌, true, pos, ◌+ℤ◌, ◌≤ℤ◌};
ghost use Rattle.zones.specs.Ways.{EachOnce, Leads};
ghost use Rattle.zones.specs.Trees.{zones, up, is_zone, is_border, parent_of, lies_behind_lem, way_of, steps_of, both_zones, flow_in, net_position_lem, InReach};

use super::Tree;
use crate::way::{FILLER, MOST_BORDERS, Step, Way};
use equations::Direction;

// The flow of a border in the flows of borders 1, 2 and so on; 0 where there is none.
fn flow_of(flows: &[i32], border: usize) -> i64
    ensures value { result ≡ flow_in flows.now border }
    ensures low { pos 0 ≤ℤ (result +ℤ pos 2147483648) }
    ensures high { result ≤ℤ pos 2147483648 }
{
    let Some(place) = border.checked_sub(1) else {
        return 0;
    };
    flows.get(place).map_or(0, |flow| i64::from(*flow))
}

impl Tree {
    /// How many zones there are.
    pub fn count(&self) -> usize
        ensures value { result ≡ zones self.now }
        ensures range { (2 ≤ result) × (result ≤ 16) }
    {
        self.count
    }

    // Whether there is such a zone.
    fn has(&self, zone: usize) -> bool
        ensures { result ≡ is_zone self.now zone }
    {
        zone < self.count
    }

    // Whether there is such a border.
    fn has_border(&self, border: usize) -> bool
        ensures { result ≡ is_border self.now border }
    {
        (1..self.count).contains(&border)
    }

    // The parent of a zone; 0 where it has none.
    fn up(&self, zone: usize) -> usize
        ensures value { result ≡ up self.now zone }
        ensures smaller { 1 ≤ zone → result < zone }
    {
        self.parents.get(zone).copied().unwrap_or(0)
    }

    /// The parent of a zone; none for zone 0 and for a zone that does not exist.
    pub fn parent(&self, zone: usize) -> Option<usize>
        ensures { result ≡ parent_of self.now zone }
    {
        self.has_border(zone).then_some(self.up(zone))
    }

    /// Whether a zone lies behind a border; never where one of them does not exist.
    #[tactic(auto, using(crate::proofs::Behind::behind_as_parent, crate::proofs::Behind::meeting))]
    pub fn lies_behind(&self, border: usize, zone: usize) -> bool
        ensures { result ≡ lies_behind_lem self.now border zone }
    {
        if !self.has_border(border) || !self.has(zone) {
            return false;
        }
        let mut at = zone;
        while at > border {
            at = self.up(at);
        }
        at == border
    }

    /// The way from seller to buyer, in order from the seller; of no border where one of them does not exist.
    pub fn way(&self, seller: usize, buyer: usize) -> Way
        ensures steps { steps_of result ≡ way_of self.now seller buyer }
        ensures once { both_zones self.now seller buyer ≡ true → EachOnce (up self.now) seller buyer (steps_of result) }
        ensures leads { both_zones self.now seller buyer ≡ true → Leads (up self.now) seller (steps_of result) buyer }
    {
        let mut steps = [FILLER; MOST_BORDERS];
        if !self.has(seller) || !self.has(buyer) {
            return Way { steps, count: 0 };
        }
        // the way that is left leads from one zone to another: the seller's side is written from the front and the buyer's from the end,
        // so that both stand in order from the seller
        let mut front = 0;
        let mut back = MOST_BORDERS;
        let mut from = seller;
        let mut to = buyer;
        while from != to {
            if from > to {
                steps[front] = Step {
                    border: from,
                    direction: Direction::Backward,
                };
                front += 1;
                from = self.up(from);
            } else {
                back -= 1;
                steps[back] = Step {
                    border: to,
                    direction: Direction::Forward,
                };
                to = self.up(to);
            }
        }
        steps.copy_within(back.., front);
        Way {
            steps,
            count: front + MOST_BORDERS - back,
        }
    }

    /// The net position that flows leave a zone, given the flows of borders 1, 2 and so on (0 where one is missing): what goes out to the
    /// zones below it less what comes in by its own border; 0 where there is no such zone.
    pub fn net_position(&self, flows: &[i32], zone: usize) -> i64
        ensures value { result ≡ net_position_lem self.now flows.now zone }
        ensures range { InReach result }
    {
        if !self.has(zone) {
            return 0;
        }
        let mut sum = 0;
        for border in 1..self.count {
            if self.up(border) == zone {
                sum += flow_of(flows, border);
            }
        }
        sum - flow_of(flows, zone)
    }
}
