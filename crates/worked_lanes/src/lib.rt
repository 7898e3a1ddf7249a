#![tactic(auto)]

ghost use Rattle.worked_lanes.specs.LaneCases.{WorkedLaneCases};

/// What the promises of the calls come to at worked lane cases: the contract is their proof. Answers how many there are.
pub fn worked_lane_cases_hold() -> u8
    ensures { WorkedLaneCases }
{
    2
}
