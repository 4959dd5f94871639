//! What `--version` says.

/// The version. The text after it is as long as what `./package` writes there in the linked program: the commit that
/// the program is built from, and what proved it.
pub const VERSION: &str = "1.0.0, not packaged: built from the sources of a clone";
