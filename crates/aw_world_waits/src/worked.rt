//! A case that was worked by hand: what the definition says of it.
ghost use Rattle.aw_world_waits.specs.Worked.{RingsAreTold};

/// Of two tasks that wait for each other both pairs are told, in the order of nodes.
pub fn worked_pairs()
    ensures { RingsAreTold }
{}
