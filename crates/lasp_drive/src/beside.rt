//! What goes on beside a run.

ghost use Rattle.std.specs.Prelude.{◌≡◌};

use lasp_graph::Graph;

/// What goes on beside the stretches of a run. At the points between them the run is alone.
pub trait Beside {
    // what it is made of, which no stretch changes
    ghost Place: { Type 0 };

    ghost place: { Self → Place };

    /// Up to how many changes a stretch is counted before it begins. Where that is none, nothing goes on beside any.
    fn most_counted(&self) -> u32;

    /// Sees the graph of the stretch that comes, which stays the same throughout.
    fn learn(&mut self, graph: &Graph)
        ensures place { place self.new ≡ place self.old };

    /// Does a stretch, which is handed in as a call, and beside it what goes on meanwhile, which has ended when this returns. The stretch is called once, and its answer is handed on. Of its commands as many change what a node holds as are told, or more where that is the most that is counted.
    fn go_beside<A, F: FnOnce() -> A>(&mut self, changes: u32, stretch: F) -> A
        requires { F.pre stretch }
        ensures done { F.post stretch result }
        ensures place { place self.new ≡ place self.old };
}

/// Nothing goes on beside the run.
#[derive(Drop)]
pub struct Alone;

impl Beside for Alone {
    ghost Place = { Unit {0} };

    ghost place = { λ _. tt };

    fn most_counted(&self) -> u32 {
        1
    }

    fn learn(&mut self, _graph: &Graph) {}

    fn go_beside<A, F: FnOnce() -> A>(&mut self, _changes: u32, stretch: F) -> A
        requires { F.pre stretch }
        ensures { F.post stretch result }
    {
        stretch()
    }
}
