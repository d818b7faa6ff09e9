//! The instructions that access a field or an element (JVMS 6.5), over words that others may
//! change: what each wants, and what it makes of the frames by the word that was found.

ghost use Rattle.std.specs.Prelude.{◌≡◌, ◌<◌, ◌^◌, IfSome};
ghost use Rattle.machine_types.specs.Events.{element_wants, moved};
ghost use Rattle.machine_types.specs.FoundWords.{Fits};
ghost use Rattle.machine_types.specs.Words.{header_word};
ghost use Rattle.machine_types.specs.declared.access.Access.TheVariants.{Load as Loads};
ghost use Rattle.machine_types.specs.declared.effect.Effect.TheVariants.{Indexes};
ghost use Rattle.machine_types.specs.declared.phase.Phase.TheVariants.{Run};
ghost use Rattle.step_core.specs.Progress.{IsAtPlace, got_to};
ghost use Rattle.step_core.specs.Sharing.{IsElementMadeBy, IsInsnMadeBy, IsTouch, Touches, Wants};
ghost use Rattle.step_core.specs.Sharing.{at_element, effect_there};

use crate::ahead::elements::{element_word, length_of};
use crate::ahead::moves::{replace, take};
use crate::ahead::places::number_behind;
use crate::ahead::run_loop::{RunLoop, one_more};
use frames::ThreadState;
use heap_words::{header_word, variable_word};
use instr_effects::ints::low;
use instr_effects::{kept, variable_of};
use instr_steps::CurrentInsn;
use jvm_types::{Op, Target};
use machine_types::{Access, Effect};

/// The access of an instruction that names a field, and what the instruction does to the stack: how
/// many values it takes, and whether it gives the one that was found.
#[derive(Clone, Copy, Debug, PartialEq, Eq)]
pub struct Touch {
    pub access: Access,
    pub takes: u16,
    pub gives: bool,
}

/// An element that an instruction accesses: its array, which is no null, the index as it stands on
/// the stack, and the value to be stored, where one is.
#[derive(Clone, Copy, Debug, PartialEq, Eq)]
pub struct Element {
    pub array: u32,
    pub index: u64,
    pub stored: Option<u64>,
}

impl Element {
    /// The look at the header of the array.
    #[inline(always)]
    pub fn header(&self) -> Access
        requires { header_word self.now.array < 2 ^ 32 }
        ensures { result ≡ Loads (header_word self.now.array) }
    {
        Access::Load(header_word(self.array))
    }

    /// The effect of the instruction.
    #[inline(always)]
    pub fn effect(&self) -> Effect
        ensures { result ≡ Indexes self.now.array self.now.index self.now.stored }
    {
        Effect::Indexes(self.array as u64, self.index, self.stored)
    }

    /// The access to the element at a word.
    #[inline(always)]
    pub fn access(&self, word: u32) -> Access
        ensures { result ≡ element_wants word self.now.stored }
    {
        match self.stored {
            Some(value) => Access::Store(word, value),
            None => Access::Load(word),
        }
    }
}

impl<'a> RunLoop<'a> {
    /// The access of an instruction that names a field, where it has one, and what the instruction
    /// does to the stack.
    #[inline(always)]
    pub fn touch_wants(&self, s: &ThreadState, place: &CurrentInsn) -> Option<Touch>
        requires here { IsAtPlace s.now self.now place.now }
        ensures wants { IfSome result (λ t. Wants s.now self.now t.access) }
        ensures touches { IfSome result (λ t. Touches (effect_there self.now place.now)) }
        ensures stack { IfSome result (λ t. IsTouch t.takes t.gives place.now.insn.op) }
    {
        let Target::Field(number) = place.target() else {
            return None;
        };
        let Some(field) = self.checked.program().fields.get(number as usize) else {
            return None;
        };
        let f = &self.frames;
        match &place.insn().op {
            Op::Getstatic(_) => Some(Touch {
                access: Access::Load(variable_word(variable_of(field, 0))),
                takes: 0,
                gives: true,
            }),
            Op::Putstatic(_) => Some(Touch {
                access: Access::Store(
                    variable_word(variable_of(field, 0)),
                    kept(field.kind, f.value(0)),
                ),
                takes: 1,
                gives: false,
            }),
            Op::Getfield(_) => {
                let a = f.value(0);
                if a == 0 {
                    return None;
                }
                Some(Touch {
                    access: Access::Load(variable_word(variable_of(field, a))),
                    takes: 1,
                    gives: true,
                })
            }
            Op::Putfield(_) => {
                let a = f.value(1);
                if a == 0 {
                    return None;
                }
                Some(Touch {
                    access: Access::Store(
                        variable_word(variable_of(field, a)),
                        kept(field.kind, f.value(0)),
                    ),
                    takes: 2,
                    gives: false,
                })
            }
            _ => None,
        }
    }

    /// What that instruction makes, by the word that its access found.
    #[inline(always)]
    pub fn touch_by(&mut self, s: &ThreadState, place: &CurrentInsn, touch: Touch, got: u64)
        requires here { IsAtPlace s.now self.old place.now }
        requires touches { Touches (effect_there self.old place.now) }
        requires stack { IsTouch touch.takes touch.gives place.now.insn.op }
        ensures { IsInsnMadeBy s.now self.old self.new got }
    {
        let checked = self.checked;
        let next = place.insn().next;
        if touch.gives {
            replace(&mut self.frames, touch.takes, got, next);
        } else {
            take(&mut self.frames, touch.takes, next);
        }
        self.number = number_behind(&self.frames, checked, place, self.number, next);
        self.count = one_more(s, self.count);
    }

    /// The element that an instruction accesses, where it does, and its array is no null.
    #[inline(always)]
    pub fn element_wants(&self, s: &ThreadState, place: &CurrentInsn) -> Option<Element>
        requires here { IsAtPlace s.now self.now place.now }
        ensures effect { IfSome result
            (λ e. effect_there self.now place.now ≡ Indexes e.array e.index e.stored) }
        ensures header { IfSome result (λ e. header_word e.array < 2 ^ 32) }
        ensures wants { IfSome result (λ e. Wants s.now self.now (Loads (header_word e.array))) }
    {
        let _heap = self.checked.heap();
        let f = &self.frames;
        match &place.insn().op {
            Op::Iaload => {
                let a = f.value(1);
                if a == 0 {
                    return None;
                }
                Some(Element {
                    array: a as u32,
                    index: f.value(0),
                    stored: None,
                })
            }
            Op::Iastore => {
                let a = f.value(2);
                if a == 0 {
                    return None;
                }
                Some(Element {
                    array: a as u32,
                    index: f.value(1),
                    stored: Some(f.value(0)),
                })
            }
            _ => None,
        }
    }

    /// The word of the element, by the header that was found, where the index is inside; the
    /// instruction has made its first event then, and the frames are as before.
    #[inline(always)]
    pub fn element_at(
        &self,
        s: &ThreadState,
        place: &CurrentInsn,
        e: Element,
        header: u64,
    ) -> Option<u32>
        requires here { IsAtPlace s.now self.now place.now }
        requires effect { effect_there self.now place.now ≡ Indexes e.array e.index e.stored }
        requires fits { Fits self.now.program (got_to s.now self.now) header }
        ensures { IfSome result (λ word. at_element (got_to s.now self.now) word e.stored
            ≡ moved self.now.program (got_to s.now self.now) Run header) }
    {
        let _heap = self.checked.heap();
        let index = low(e.index);
        if index >= length_of(header) {
            return None;
        }
        Some(element_word(e.array as u64, index) as u32)
    }

    /// What the instruction makes behind it, by the word that the access to the element found.
    #[inline(always)]
    pub fn element_by(
        &mut self,
        s: &ThreadState,
        place: &CurrentInsn,
        e: Element,
        word: u32,
        got: u64,
    )
        requires here { IsAtPlace s.now self.old place.now }
        requires effect { effect_there self.old place.now ≡ Indexes e.array e.index e.stored }
        ensures { IsElementMadeBy s.now self.old self.new word e.stored got }
    {
        let checked = self.checked;
        let next = place.insn().next;
        match e.stored {
            Some(_) => take(&mut self.frames, 3, next),
            None => replace(&mut self.frames, 2, got, next),
        }
        self.number = number_behind(&self.frames, checked, place, self.number, next);
        self.count = one_more(s, self.count);
    }
}
