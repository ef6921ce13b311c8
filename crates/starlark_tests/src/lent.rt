//! What visitors lend to closures, and what calls, parameters and types lend of their parts.

mod unpacking;
mod visiting;
