//! Strict messages: those without the forms that common readers reject.

pub(crate) mod lax;
pub(crate) mod path_strictness;
pub(crate) mod strict;
pub(crate) mod strict_turn;
pub(crate) mod strict_vetting;
