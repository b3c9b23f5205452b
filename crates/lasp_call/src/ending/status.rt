//! The status of each failure.

ghost use Rattle.std.specs.Prelude.{◌≡◌};
ghost use Rattle.lasp_call.specs.Prelude.{status_of, refusal_status};

use model_program::{Failure, Refusal};

/// The status that a refusal ends with.
pub fn refusal_status(refusal: &Refusal) -> u8
    ensures { result ≡ refusal_status refusal.now }
{
    match refusal {
        Refusal::Usage => 1,
        Refusal::Graph(_, _) => 2,
        Refusal::Script(_, _) | Refusal::NotDots(_) | Refusal::NotLive(_) => 3,
        Refusal::TooLong(_) => 4,
        Refusal::TooLarge(_, _, _) | Refusal::NetworkFull(_) => 6,
        Refusal::NotReached(_) => 8,
        Refusal::State(_, _, _) => 9,
    }
}

/// The status that a failure ends with.
pub fn status(failure: &Failure) -> u8
    ensures { result ≡ status_of failure.now }
{
    match failure {
        Failure::Refused(refusal) => refusal_status(refusal),
        Failure::ReadFault(_) => 4,
        Failure::Memory => 7,
    }
}
