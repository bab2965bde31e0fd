// The theory of convex piecewise-linear flows and tensions: plain types, definitions and laws.
// The definitions stand in specs/, a module a notion; each law is the contract of a function here.
#![tactic(auto)]

pub mod certificate_laws;
mod colour;
pub mod curve_laws;
pub mod examples;
mod ext;
mod network;
pub mod network_laws;
pub mod pricing;
pub mod view_laws;

pub use colour::Colour;
pub use ext::Ext;
pub use network::{Arc, ArcId, NodeId, Step};
