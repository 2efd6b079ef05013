// The law, whatever makes the plans.
ghost use Rattle.std.specs.Prelude.{◌≡◌, true};
ghost use Rattle.law.specs.Runs.{ReportIsLowest};
ghost use Rattle.law.specs.Calls.{Maker};
ghost use Rattle.law.specs.History.{Makes, EveryList};
ghost use Rattle.law.specs.Single.{OneAnswer};

// Whatever makes schedules, by the schedules that it may make.
pub trait Planning {
    ghost makes: { Maker };

    // They serve the matrix and are as long as its busiest line.
    ghost good: { Makes makes };
}

// Apart, so that an edit can leave the law out.
fn law_holds<P: Planning>(_planner: &P)
    ensures law { EveryList P.makes }
    ensures single { OneAnswer P.makes }
    ensures lowest { ReportIsLowest }
{}

// Every list of calls keeps the law, each call has one answer, and a step tells of the lowest uplink that fell short.
pub fn law_stands<P: Planning>(planner: &P) -> bool
    ensures stands { result ≡ true }
    ensures law { EveryList P.makes }
    ensures single { OneAnswer P.makes }
    ensures lowest { ReportIsLowest }
{
    law_holds(planner);
    true
}
