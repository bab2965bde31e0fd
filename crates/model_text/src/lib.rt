//! The model text: names, the model, its printed form, and the reader that names the first bad line.
#![tactic(auto)]

mod addition;
mod bytes;
mod entry;
mod fault;
mod items;
mod line;
mod model;
mod name;
mod numbers;
mod part;
#[cfg(test)]
mod part_tests;
mod print;
mod read;
#[cfg(test)]
mod read_tests;
mod rescaling;
#[cfg(test)]
mod rescaling_tests;
mod scale;
#[cfg(test)]
mod tests;
pub mod text_laws;
mod words;

pub use bytes::{are_same, cut};
pub use fault::{FaultWord, PartFault};
pub use model::{ARCS_MOST, AddFault, LIST_MOST, Model, NODES_MOST};
pub use name::{NAME_MOST, Name, NameFault, is_name};
pub use numbers::number;
pub use part::{curve_of_words, read_curve};
pub use print::{
    append_end, append_fixed, append_line, append_list, append_number, append_word, print_model,
};
pub use read::{ModelError, read_model};
pub use rescaling::{ScaleFault, rescale};
pub use scale::{DECIMALS_MOST, Scale};
pub use words::words_of;
