// Servers on a circle: who comes next, who stands in for whom, what a mask covers, and what a message still has to go. Definitions in specs/, lemmas in proofs/.
#![tactic(auto)]

ghost use Rattle.circle.specs.StandIns.{AtMostOneStandIn};

// Where servers notice only crashed ones, no two standing servers are stand-ins for the same one.
pub fn at_most_one_stand_in()
    ensures { AtMostOneStandIn }
{}
