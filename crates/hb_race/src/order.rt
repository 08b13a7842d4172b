//! What holds of happens-before and of races, whatever the run.

ghost use Rattle.hb_race.specs.Laws.{HasTheEdges, IsTheLeast, EachHasOneList};

/// A law of the answers, and no work: happens-before is the least transitive relation that has a
/// run's edges, and a run has one list of races.
pub fn one_list_of_races()
    ensures edges { HasTheEdges }
    ensures least { IsTheLeast }
    ensures races { EachHasOneList }
{}
