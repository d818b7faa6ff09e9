//! Lock tags: which values are known to be the same one. They check that the locking of a method is
//! structured (JVMS 2.11.10).

ghost use Rattle.std.specs.Prelude.{◌≡◌, IfOk};
ghost use Rattle.std.specs.Arc.{arc_value};

use crate::tag_locals::TagLocals;
use jvm_types::{Rows, Stack};
use std::alloc::{AllocError, Global};
use std::marker::Model;
use std::sync::Arc;

/// What is known of which value a place holds.
#[derive(Clone, Copy, Debug, PartialEq, Eq)]
pub enum Tag {
    Untagged,
    /// The value that `this` names.
    This,
    /// The value that the `dup` at this pc made.
    At(u32),
}

/// The tags of the locals before one instruction, and of the monitors that are held there.
#[derive(Debug, Drop)]
struct TagParts {
    locals: TagLocals,
    held: Stack<Tag>,
}

/// The tags before one instruction: of the stack, of the locals, and of the monitors that the
/// method has entered, the innermost on the top.
///
/// Frames of the same locals and monitors can share these in memory.
#[derive(Debug, Drop)]
pub struct TagFrame {
    stack: Stack<Tag>,
    parts: Arc<TagParts>,
}

impl Model for TagFrame {
    ghost use Rattle.std.specs.Arc.{arc_value};
    ghost use Rattle.checked_program.specs.LockTags.{TagShape};

    ghost Value = { TagShape };

    ghost view = { λ f.
        record {
          stack = f.stack;
          locals = (arc_value f.parts).locals;
          held = (arc_value f.parts).held;
        } };
}

/// Locals and monitors that nobody shares.
fn unshared(alloc: Global, parts: Arc<TagParts>) -> Result<TagParts, AllocError>
    ensures { IfOk result (λ own. own ≡ arc_value parts) }
{
    match Arc::try_unwrap(parts) {
        Ok(own) => Ok(own),
        Err(shared) => Ok(TagParts {
            locals: shared.locals.copy(alloc)?,
            held: shared.held.copy(alloc)?,
        }),
    }
}

impl TagFrame {
    pub fn new(
        alloc: Global,
        stack: Stack<Tag>,
        locals: TagLocals,
        held: Stack<Tag>,
    ) -> Result<Self, AllocError>
        ensures { IfOk result (λ f. f ≡ record { stack = stack; locals = locals; held = held }) }
    {
        Ok(TagFrame {
            stack,
            parts: Arc::new(alloc, TagParts { locals, held })?,
        })
    }

    /// The same frame with another stack. It shares the locals and what is held.
    pub fn with_stack(&self, stack: Stack<Tag>) -> Result<Self, AllocError>
        ensures { IfOk result (λ f. f ≡ record self.now { stack = stack }) }
    {
        Ok(TagFrame {
            stack,
            parts: Arc::try_clone(&self.parts)?,
        })
    }

    pub fn stack(&self) -> &Stack<Tag>
        ensures { result.now ≡ self.now.stack }
    {
        &self.stack
    }

    pub fn locals(&self) -> &TagLocals
        ensures { result.now ≡ self.now.locals }
    {
        &self.parts.locals
    }

    /// The tags of the monitors that the method has entered and not left, the innermost on the top.
    /// That of a synchronized method is not among them.
    pub fn held(&self) -> &Stack<Tag>
        ensures { result.now ≡ self.now.held }
    {
        &self.parts.held
    }

    /// The stack, the locals and what is held.
    pub fn into_parts(
        self,
        alloc: Global,
    ) -> Result<(Stack<Tag>, TagLocals, Stack<Tag>), AllocError>
        ensures stack { IfOk result (λ parts. parts.0 ≡ self.stack) }
        ensures locals { IfOk result (λ parts. parts.1 ≡ self.locals) }
        ensures held { IfOk result (λ parts. parts.2 ≡ self.held) }
    {
        let own = unshared(alloc, self.parts)?;
        Ok((self.stack, own.locals, own.held))
    }
}

/// The tags of one method, with an entry for each instruction in order; it is `None` where the
/// instruction is not reached.
#[derive(Debug, Drop)]
pub struct Tags {
    pub frames: Rows<Option<TagFrame>>,
}
