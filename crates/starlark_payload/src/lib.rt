//! Payload maps: the same tree with other payloads.
#![tactic(auto)]

mod boxes;
mod f_strings;
mod makers;
mod mapping;
mod names;
mod nodes;
mod openers;
pub mod payload_map;
pub mod placed_maps;
mod shapes;
mod single;
mod statement_mapping;
pub mod statement_maps;
mod statement_nodes;
mod statement_openers;
mod statement_shapes;
pub mod tree_maps;
