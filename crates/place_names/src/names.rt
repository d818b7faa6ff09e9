//! What the classes of a program have beside it.

use jvm_types::{Bytes, Rows};
use source_lines::Sources;

/// The names of the fields of a program in their order, and the sources of its methods.
#[derive(Debug, Drop)]
pub struct Names {
    pub fields: Rows<Bytes>,
    pub sources: Sources,
}
