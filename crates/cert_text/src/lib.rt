// Certificates and their texts.
#![tactic(auto)]

mod candidate;
mod certificate;
#[cfg(test)]
mod decimals_tests;
mod feasible;
mod lines;
mod numbers;
mod print;
mod read;
#[cfg(test)]
mod tests;
mod text_laws;

pub use certificate::{Certificate, SUM_MOST};
pub use feasible::{FlowPart, TensionPart, print_feasible};
pub use print::{append_arc_name, append_node_name, print_cert};
pub use read::{CertFault, read_cert};
pub use text_laws::{bad_line_has_none, one_bad_line, one_certificate};
