//! The status of each failure.

ghost use Rattle.std.specs.Prelude.{◌≡◌};
ghost use Rattle.model_site.specs.Line.{site_refusal_status, status_of};

use lasp_call::refusal_status;
use model_site::{SiteFailure, SiteRefusal};

fn site_refusal_status(refusal: &SiteRefusal) -> u8
    ensures { result ≡ site_refusal_status refusal.now }
{
    match refusal {
        SiteRefusal::Shared(refusal) => refusal_status(refusal),
        SiteRefusal::NotLocal(_) => 3,
        SiteRefusal::FileTooLarge(_, _, _) | SiteRefusal::UpdatesFull(_, _) => 6,
    }
}

/// The status that a failure ends with.
pub(crate) fn status(failure: &SiteFailure) -> u8
    ensures { result ≡ status_of failure.now }
{
    match failure {
        SiteFailure::Refused(refusal) => site_refusal_status(refusal),
        SiteFailure::ReadFault(_) => 4,
        SiteFailure::Memory => 7,
    }
}
