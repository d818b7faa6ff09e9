ghost use Rattle.std.specs.Prelude.{◌≡◌, ◌<◌, ◌≤◌, length, slice_get, IfOk};
ghost use Rattle.jvm_types.specs.ProgramInvariant.{statics_among};
ghost use Rattle.jvm_types.specs.declared.limits.TheConstants.{MOST_HEAP};
ghost use Rattle.checked_program.specs.CodeIndex.{number_in, word_of_class, words_of_object};
ghost use Rattle.checked_program.specs.CodeIndex.{AllAscend, FewInstances};
ghost use Rattle.checked_program.specs.MarkedProgram.{IsMarked};
ghost use Rattle.checked_program.specs.Reach.{IsReach};

use crate::code_index::{CodeIndex, count_words, search_in, word_of_class};
use crate::reached_code::reach;
use crate::section::SectionMark;
use crate::tag::Tags;
use jvm_types::{Program, Rows, Typing};
use std::alloc::{AllocError, Global};
use std::marker::Model;

/// A linked program whose methods were verified and tagged, and whose sections were marked: a
/// program beside the typing and the lock tags of each of its methods, in the order of the methods,
/// and the mark of each of its sections, in the order of the sections. Once it is indexed, what a
/// run asks for at each instruction is found in constant time; contracts don't see that.
#[derive(Debug, Drop)]
pub struct Checked {
    program: Program,
    typings: Rows<Typing>,
    tags: Rows<Tags>,
    marks: Rows<SectionMark>,
    index: Option<CodeIndex>,
}

impl Model for Checked {
    ghost use Rattle.std.specs.Prelude.{IfSome};
    ghost use Rattle.checked_program.specs.CodeIndex.{IsCodeIndex};
    ghost use Rattle.checked_program.specs.MarkedProgram.{MarkedProgram, IsMarked};

    ghost Value = { MarkedProgram };

    ghost view = { λ c.
        record { program = c.program; typings = c.typings; tags = c.tags; marks = c.marks } };

    ghost invariant = { λ c.
        IsMarked
        (record { program = c.program; typings = c.typings; tags = c.tags; marks = c.marks })
        × IfSome c.index (λ index.
        IsCodeIndex c.program.methods c.program.fields index.tables.items index.sizes.items
        index.classes.items) };
}

impl Checked {
    /// The program with the typings, tags and marks that were found.
    pub fn of(
        program: Program,
        typings: Rows<Typing>,
        tags: Rows<Tags>,
        marks: Rows<SectionMark>,
    ) -> Self
        requires { IsMarked
            (record { program = program; typings = typings; tags = tags; marks = marks }) }
        ensures { result
            ≡ record { program = program; typings = typings; tags = tags; marks = marks } }
    {
        Checked {
            program,
            typings,
            tags,
            marks,
            index: None,
        }
    }

    /// Tells that the pcs of each method ascend, that no class has many fields, and that there are
    /// few static ones.
    fn indexable(&self)
        ensures ascend { AllAscend self.now.program.methods }
        ensures few { FewInstances self.now.program.fields }
        ensures statics { statics_among self.now.program.fields ≤ MOST_HEAP }
    {
        let _ = &self.program;
    }

    /// The same program with tables of its instructions, its objects and its classes.
    pub fn indexed(mut self, alloc: Global) -> Result<Checked, AllocError>
        ensures { IfOk result (λ c. c ≡ self) }
    {
        self.indexable();
        self.index = Some(CodeIndex::of(alloc, &self.program)?);
        Ok(self)
    }

    /// The number of the instruction of a method that begins at a pc, where one does: in constant
    /// time once the program is indexed, else by a search.
    #[inline(always)]
    pub fn number_at(&self, method: u32, pc: u32) -> Option<usize>
        ensures { result ≡ number_in (slice_get self.now.program.methods method) pc }
    {
        match &self.index {
            Some(index) if (method as usize) < index.tables.len() =>
                index.tables[method as usize].find(pc),
            _ => search_in(&self.program, method, pc),
        }
    }

    /// How many words an object of a class takes: two, and one for each of its fields.
    #[inline(always)]
    pub fn object_size(&self, class: u16) -> u32
        ensures { result ≡ words_of_object self.now.program.fields class }
    {
        self.indexable();
        let known = match &self.index {
            Some(index) => index.sizes.get(usize::from(class)),
            None => None,
        };
        match known {
            Some(words) => *words,
            None => count_words(self.program.fields.as_slice(), class),
        }
    }

    /// The word at which the class of the file of this number stands, as an object.
    #[inline(always)]
    pub fn class_word(&self, file: u16) -> u32
        ensures { result ≡ word_of_class self.now.program.fields file }
    {
        self.indexable();
        let known = match &self.index {
            Some(index) => index.classes.get(usize::from(file)),
            None => None,
        };
        match known {
            Some(word) => *word,
            None => word_of_class(self.program.fields.as_slice(), file),
        }
    }

    /// The linked program.
    pub fn program(&self) -> &Program
        ensures program { result.now ≡ self.now.program }
        ensures marked { IsMarked self.now }
    {
        &self.program
    }

    /// The typing of each method, in order.
    pub fn typings(&self) -> &Rows<Typing>
        ensures typings { result.now ≡ self.now.typings }
        ensures marked { IsMarked self.now }
    {
        &self.typings
    }

    /// The lock tags of each method, in order.
    pub fn tags(&self) -> &Rows<Tags>
        ensures tags { result.now ≡ self.now.tags }
        ensures marked { IsMarked self.now }
    {
        &self.tags
    }

    /// The mark of each synchronized section, in order of methods; within one, a synchronized
    /// method's own section first, then its blocks by their pc.
    pub fn marks(&self) -> &Rows<SectionMark>
        ensures marks { result.now ≡ self.now.marks }
        ensures marked { IsMarked self.now }
    {
        &self.marks
    }

    /// The number of instructions of a method together with those of all other methods that it
    /// calls, directly or through calls (JVMS 6.5, the invoke instructions); each method counts
    /// once, and all of its code. `method` is the number of a method of the program. It answers
    /// `AllocError` where memory is wanted.
    pub fn reach(&self, alloc: Global, method: u32) -> Result<u32, AllocError>
        requires { method < length self.now.program.methods }
        ensures { IfOk result (IsReach self.now.program method) }
    {
        reach(alloc, self.program(), method)
    }

    /// The number of worker threads.
    pub fn workers(&self) -> u8
        ensures workers { result ≡ self.now.program.workers }
        ensures marked { IsMarked self.now }
    {
        self.program.workers
    }

    /// The number of heap words.
    pub fn heap(&self) -> u32
        ensures heap { result ≡ self.now.program.heap }
        ensures marked { IsMarked self.now }
    {
        self.program.heap
    }
}
