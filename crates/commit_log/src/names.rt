use crate::LogNames;
use std::marker::Brand;
use tickets::GroupNames;

/// Identifies the data that a log and the groups claimed for it have in common. Everything that belongs to an engine of
/// both has it as a type parameter.
pub trait Names: LogNames + GroupNames {}

impl Names for Brand {}
