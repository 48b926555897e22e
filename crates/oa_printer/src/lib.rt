//! The canonical text of a library's tree: the one that this project prints, of all texts with that
//! tree.
//!
//! Contract: `print` returns the canonical text of a tree (`canonical`). Theorems in `laws` say
//! that this text is parsed as the same tree again. The tree must be that of a text
//! (`IsPrintable`), with or without marked defaults, and the text not too long.
//!
//! Used by oa_sema, whose last error is a canonical text that is too long, and by oa_typelib,
//! which stores the text. Also used by oa_turn, oa_server and oa_history, whose contracts say that
//! it is parsed again.
#![tactic(auto)]

pub mod laws;
mod printer;

pub use printer::print;
