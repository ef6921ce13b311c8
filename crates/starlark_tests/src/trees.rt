//! What parts of trees print by themselves, clones of leaves, and rules on trees.

mod leaves;
mod parts;
mod rule_texts;
mod rules;
mod traits;
