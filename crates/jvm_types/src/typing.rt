//! The types that verification gives to the stack and the locals at each instruction (JVMS 4.10.2).

ghost use Rattle.std.specs.Prelude.{◌≡◌, length, slice_get, IfOk};
ghost use Rattle.std.specs.Arc.{arc_value};
ghost use Rattle.jvm_types.specs.Types.{filled};

use lists::{Rows, Stack};
use std::alloc::{AllocError, Global};
use std::marker::Model;
use std::sync::Arc;

/// The type of one place of the stack or of the locals. Classes are given by their numbers.
#[derive(Clone, Copy, Debug, PartialEq, Eq)]
pub enum VType {
    Int,
    Null,
    /// A reference to an object of this class or of a class below it, or null.
    Ref(u16),
    /// `this` in an `<init>` that has not yet called another `<init>` on it.
    This,
    /// An object that the `new` at this pc made and no `<init>` was called on.
    New(u32),
    /// None: nothing is known of the value.
    Top,
}

/// The types of the locals before one instruction, which contracts see as the list of them.
///
/// Only the first are kept, up to the last that is known: no more than the arguments, and the
/// locals that instructions write, which are below 256 (JVMS 6.5: an index has one byte without
/// `wide`).
#[derive(Debug, Drop)]
struct TypeLocals {
    first: Rows<VType>,
    count: usize,
}

impl Model for TypeLocals {
    ghost use Rattle.std.specs.Prelude.{List};
    ghost use Rattle.jvm_types.specs.Types.{filled};
    ghost use Rattle.jvm_types.specs.declared.typing.VType.{VType};

    ghost Value = { List VType };

    ghost view = { λ l. filled l.count l.first };
}

impl TypeLocals {
    /// The types but for last ones of which nothing is known.
    #[tactic(auto, using(crate::proofs::FilledLaws::filled_again))]
    fn first(&self) -> &[VType]
        ensures { filled (length self.now) result.now ≡ self.now }
    {
        self.first.as_slice()
    }

    /// How many locals there are.
    #[tactic(auto, using(crate::proofs::FilledLaws::length_filled))]
    fn len(&self) -> usize
        ensures { result ≡ length self.now }
    {
        self.count.max(self.first.len())
    }

    /// The type of a local, or `None` where there are not so many.
    fn get(&self, i: usize) -> Option<VType>
        ensures { result ≡ slice_get self.now i }
    {
        match self.first.get(i) {
            Some(t) => Some(*t),
            None if i < self.count => Some(VType::Top),
            None => None,
        }
    }
}

/// The types before one instruction: of the stack, of the locals, and in an `<init>` whether `this`
/// is initialised, which outside one it always is.
///
/// Frames of the same locals can share them in memory.
#[derive(Debug, Drop)]
pub struct TypeFrame {
    stack: Stack<VType>,
    locals: Arc<TypeLocals>,
    ready: bool,
}

impl Model for TypeFrame {
    ghost use Rattle.std.specs.Arc.{arc_value};
    ghost use Rattle.jvm_types.specs.Types.{TypeFrame};

    ghost Value = { TypeFrame };

    ghost view = { λ f. record { stack = f.stack; locals = arc_value f.locals; ready = f.ready } };
}

/// The first of some locals, as a list that nobody shares.
#[tactic(auto, using(crate::proofs::FilledLaws::filled_again))]
fn unshared(alloc: Global, locals: Arc<TypeLocals>) -> Result<Rows<VType>, AllocError>
    ensures { IfOk result (λ first. filled (length (arc_value locals)) first ≡ arc_value locals) }
{
    match Arc::try_unwrap(locals) {
        Ok(own) => Ok(own.first),
        Err(shared) => Rows::from_slice(alloc, shared.first()),
    }
}

impl TypeFrame {
    /// A frame of so many locals, or of as many as are given where these are more. Nothing is known
    /// of those that are not given.
    pub fn new(
        alloc: Global,
        stack: Stack<VType>,
        first_locals: Rows<VType>,
        local_count: usize,
        ready: bool,
    ) -> Result<Self, AllocError>
        ensures { IfOk result (λ f.
            f ≡ record
            { stack = stack; locals = filled local_count first_locals; ready = ready }) }
    {
        let locals = TypeLocals {
            first: first_locals,
            count: local_count,
        };
        Ok(TypeFrame {
            stack,
            locals: Arc::new(alloc, locals)?,
            ready,
        })
    }

    /// The same frame with another stack. It shares the locals.
    pub fn with_stack(&self, stack: Stack<VType>) -> Result<Self, AllocError>
        ensures { IfOk result (λ f. f ≡ record self.now { stack = stack }) }
    {
        Ok(TypeFrame {
            stack,
            locals: Arc::try_clone(&self.locals)?,
            ready: self.ready,
        })
    }

    pub fn stack(&self) -> &Stack<VType>
        ensures { result.now ≡ self.now.stack }
    {
        &self.stack
    }

    /// The locals but for last ones of which nothing is known.
    pub fn first_locals(&self) -> &[VType]
        ensures { filled (length self.now.locals) result.now ≡ self.now.locals }
    {
        self.locals.first()
    }

    /// How many locals there are.
    pub fn local_count(&self) -> usize
        ensures { result ≡ length self.now.locals }
    {
        self.locals.len()
    }

    /// The type of a local, or `None` where there are not so many.
    pub fn local(&self, i: usize) -> Option<VType>
        ensures { result ≡ slice_get self.now.locals i }
    {
        self.locals.get(i)
    }

    pub fn is_ready(&self) -> bool
        ensures { result ≡ self.now.ready }
    {
        self.ready
    }

    /// The stack, the locals but for last ones of which nothing is known, and whether `this` is
    /// initialised.
    pub fn into_parts(self, alloc: Global) -> Result<(Stack<VType>, Rows<VType>, bool), AllocError>
        ensures stack { IfOk result (λ parts. parts.0 ≡ self.stack) }
        ensures locals { IfOk result (λ parts. filled (length self.locals) parts.1 ≡ self.locals) }
        ensures ready { IfOk result (λ parts. parts.2 ≡ self.ready) }
    {
        let first = unshared(alloc, self.locals)?;
        Ok((self.stack, first, self.ready))
    }
}

/// The types of one method, with an entry for each instruction in order; it is `None` where the
/// instruction is not reached.
#[derive(Debug, Drop)]
pub struct Typing {
    pub frames: Rows<Option<TypeFrame>>,
}
