ghost use Rattle.kit_runs.specs.Laws.{EachRunIsTheirs};

/// What ports need of a program, and what their runs say then.
pub fn run_of_bodies()
    ensures { EachRunIsTheirs }
{}
