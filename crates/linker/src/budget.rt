//! A bound on what a program copies of the texts and the types of its methods.

ghost use Rattle.std.specs.Prelude.{◌≡◌, ◌+◌, ◌*◌, length, IfOk};

use jvm_types::{Bytes, Kind, Rows};
use std::alloc::{AllocError, Global};

/// The most bytes that the names, the descriptors and the arguments of all methods of one program
/// have, 128 MiB. Files of some kilobytes can ask for more, since many methods can share a long
/// descriptor: for these memory runs out.
pub const MOST_COPIED: usize = 134_217_728;

/// The bytes of the type of an argument.
const KIND_BYTES: usize = 4;

/// The bytes that methods to come may have.
#[derive(Drop)]
pub struct Budget {
    pub left: usize,
}

impl Budget {
    /// A copy of a text.
    pub fn copy_text(&mut self, alloc: Global, text: &[u8]) -> Result<Bytes, AllocError>
        ensures copy { IfOk result (λ copy. copy ≡ text.now) }
        ensures taken { IfOk result (λ copy. self.new.left + length copy ≡ self.old.left) }
    {
        if text.len() > self.left {
            return Err(AllocError);
        }
        self.left -= text.len();
        Bytes::from_slice(alloc, text)
    }

    /// A copy of the types of some arguments.
    pub fn copy_kinds(&mut self, alloc: Global, kinds: &[Kind]) -> Result<Rows<Kind>, AllocError>
        ensures copy { IfOk result (λ copy. copy ≡ kinds.now) }
        ensures taken { IfOk result (λ copy. self.new.left + 4 * length copy ≡ self.old.left) }
    {
        if kinds.len() > self.left / KIND_BYTES {
            return Err(AllocError);
        }
        self.left -= KIND_BYTES * kinds.len();
        Rows::from_slice(alloc, kinds)
    }
}
