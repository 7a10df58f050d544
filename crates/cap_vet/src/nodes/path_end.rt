//! Where a path leads in a message that wasn't vetted.

use crate::nodes::charged::Arrival;
use cap_spec::Refusal;

/// Where a path leads.
#[derive(Clone, Copy)]
pub(crate) enum PathEnd {
    /// To something.
    To(Arrival),
    /// To nothing. This is what its last step but those that lead to nothing arrived at.
    Early(Arrival),
    /// It is refused.
    Refused(Refusal),
}
