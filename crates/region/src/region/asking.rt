//! What a region is asked.
ghost use Rattle.std.specs.Prelude.{◌≡◌, ◌<◌};
ghost use Rattle.zones.specs.Trees.{zones, up, InReach};
ghost use Rattle.zones.specs.Ways.{net_of_flows};
ghost use Rattle.borders.specs.Border.{flow_of};
ghost use Rattle.borders.specs.Bank.{border_at};
ghost use Rattle.book.specs.Limits.{zone_overrun};
ghost use Rattle.region.specs.Seen.{DidWithoutLogs, ask_border_lem, ask_zone_lem};

use super::Region;
use book::{Answer, RegionFault, ZoneLimit};
use borders::Bank;
use equations::Direction;
use zones::way::MOST_BORDERS;

// How far a net position lies beyond a zone's limit.
fn overrun(limit: Option<ZoneLimit>, net: i64) -> i64
    requires { InReach net }
    ensures { result ≡ zone_overrun limit net }
{
    match limit {
        None => 0,
        Some(limit) => {
            let above = net - i64::from(limit.export);
            let below = -i64::from(limit.import) - net;
            above.max(below).max(0)
        }
    }
}

impl<B: Bank> Region<B> {
    // The net position that the flows of the borders leave a zone in a period.
    fn net(&self, zone: usize, period: i32) -> i64
        requires { zone < zones self.now.kept.tree }
        ensures value { result ≡ net_of_flows (zones self.now.kept.tree) (up self.now.kept.tree) (λ c. flow_of (border_at (B.Bank.borders self.now.bank) c) period) zone }
        ensures range { InReach result }
    {
        let mut flows = [0; MOST_BORDERS];
        for border in 1..self.kept.tree.count() {
            flows[border - 1] = self.bank.flow(border, period);
        }
        self.kept.tree.net_position(&flows, zone)
    }

    /// What may still be traded over a border in a period, each way, and its flow.
    pub fn ask_border(&self, border: i32, period: i32) -> Result<Answer, RegionFault>
        ensures { DidWithoutLogs B.Bank.borders self.now (ask_border_lem border period) result self.now }
    {
        let at = self.border(border, period)?;
        let forward = self
            .state
            .open(self.bank.margin(at, Direction::Forward, period));
        let backward = self
            .state
            .open(self.bank.margin(at, Direction::Backward, period));
        let flow = self.bank.flow(at, period);
        Ok(Answer::Border {
            forward,
            backward,
            flow,
        })
    }

    /// A zone's net position and overrun in a period.
    pub fn ask_zone(&self, zone: i32, period: i32) -> Result<Answer, RegionFault>
        ensures { DidWithoutLogs B.Bank.borders self.now (ask_zone_lem zone period) result self.now }
    {
        let slot = self.zone(zone, period)?;
        let net = self.net(slot.zone, period);
        let overrun = overrun(self.kept.table.at(slot).limit, net);
        Ok(Answer::Zone { net, overrun })
    }
}
