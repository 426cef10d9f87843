//! What a port may link, as a set of possible links that narrows.
#![tactic(auto)]

pub mod laws;
mod port_domain;
#[cfg(test)]
mod tests;

pub use domain_store::Change;
pub use instance_set::InstanceSet;
pub use port_domain::PortDomain;
