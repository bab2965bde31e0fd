//! The commands of the program, whole: from the words and the files to the text that is written and the status.
#![tactic(auto)]

mod answer;
mod ascending;
mod between;
mod between_text;
mod check;
mod command;
mod convert;
mod feasible;
mod fetch;
mod lines;
mod pieces;
mod reply;
mod resolve;
mod show_curve;
mod show_tableau;
mod solve;
mod status;
mod steady;
mod table_line;
mod top;
mod transport;
mod transport_text;
mod trial;
mod trial_number;
mod verdict_line;

pub use fetch::FILE_MOST;
pub use status::Status;
pub use steady::run_steadily;
pub use top::run;

#[cfg(test)]
mod between_tests;
#[cfg(test)]
mod check_tests;
#[cfg(test)]
mod decimals_tests;
#[cfg(test)]
mod feasible_tests;
#[cfg(test)]
mod pieces_tests;
#[cfg(test)]
mod resolve_tests;
#[cfg(test)]
mod solve_tests;
#[cfg(test)]
mod tableau_tests;
#[cfg(test)]
mod tests;
#[cfg(test)]
mod torn_tests;
#[cfg(test)]
mod transport_tests;
