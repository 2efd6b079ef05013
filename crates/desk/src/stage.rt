// Which requests are in their place.
ghost use Rattle.std.specs.Prelude.{◌≡◌};
ghost use Rattle.desk.specs.Stages.{admits};

use script::Request;

// Where a script stands, without what it holds there: `n` has not been accepted; fault rules may follow; another command has been read.
#[derive(Clone, Copy)]
pub enum Stage {
    Start,
    Rules,
    Running,
}

impl Stage {
    // Whether a request is in its place.
    pub fn admits(self, request: &Request) -> bool
        ensures { result ≡ admits self request.now }
    {
        match self {
            Stage::Start => matches!(*request, Request::Lines(_)),
            Stage::Rules => !matches!(*request, Request::Lines(_)),
            Stage::Running => !matches!(*request, Request::Lines(_) | Request::Fault { .. }),
        }
    }
}
