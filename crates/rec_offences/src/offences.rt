//! The kinds of offences, each noted where it is found.
pub(crate) mod heads;
pub(crate) mod limits;
pub(crate) mod repeated;
pub(crate) mod sides;
pub(crate) mod unknown;
pub(crate) mod variables;
