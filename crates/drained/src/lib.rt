// Shelves come to rest: with turns and deliveries alone they are soon drained, then owe nothing, and their servers agree. The statements stand in the specs of model, the proofs in proofs/.
#![tactic(auto)]

ghost use Rattle.model.specs.AtRest.{ServersAgreeAtRest};
ghost use Rattle.model.specs.Promises.{EveryRunDrainsSoonAndOwesNothing};

// Once every standing server has noticed every crash, and only turns, deliveries and picks follow, at most 6 · m · (w + q) turns and deliveries
// are accepted, and then every operation at a standing server is answered or was given up. The amounts m, w and q are those from which this
// begins; "then" is once the shelf is drained: turn and deliver are refused at every server.
pub fn every_run_drains_soon_and_owes_nothing<V>()
    ensures { EveryRunDrainsSoonAndOwesNothing V }
{}

// At rest, with every crash noticed by every standing server and the shelf drained, all standing servers hold the same row, and no answered operation
// has a higher tag than that row.
pub fn servers_agree_at_rest<V>()
    ensures { ServersAgreeAtRest V }
{}
