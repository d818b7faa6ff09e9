//! Whether some path reaches a section.

ghost use Rattle.std.specs.Prelude.{◌≡◌, length, slice_get};
ghost use Rattle.std.specs.Option.{option_copied};
ghost use Rattle.jvm_types.specs.ProgramInvariant.{IsProgram};
ghost use Rattle.checked_program.specs.TaggedCode.{tagged_by};
ghost use Rattle.mark_reasons.specs.Firsts.{IsFirst};
ghost use Rattle.mark_reasons.specs.ReachedSpots.{begins_at, block_begins, is_monitorenter};
ghost use Rattle.mark_reasons.specs.ReachedSpots.{IsFirstBegin, TellsReached};

use crate::own::is_reached;
use checked_program::{Spot, Tags};
use jvm_types::{Insn, MethodInfo, Op, Program, Rows};

fn is_monitorenter(op: &Op) -> bool
    ensures { result ≡ is_monitorenter op.now }
{
    match op {
        Op::Monitorenter => true,
        _ => false,
    }
}

/// Whether a block begins at an instruction whose pc is this.
fn begins_at(insn: Option<&Insn>, pc: u32) -> bool
    ensures { result ≡ begins_at (option_copied insn.entry) pc }
{
    match insn {
        Some(there) => is_monitorenter(&there.op) && there.pc == pc,
        None => false,
    }
}

/// Whether the block of a pc begins at the instruction of a number, and some path leads there.
fn block_begins(m: &MethodInfo, t: &Tags, pc: u32, i: usize) -> bool
    ensures { result ≡ block_begins m.now t.now.frames pc i }
{
    begins_at(m.code.get(i), pc) && is_reached(m, t, i)
}

fn first_begin(m: &MethodInfo, t: &Tags, pc: u32) -> Option<usize>
    ensures { IsFirst (block_begins m.now t.now.frames pc) (length m.now.code) result }
{
    for i in 0..m.code.len() {
        if block_begins(m, t, pc, i) {
            return Some(i);
        }
    }
    None
}

/// The same of the method of a number.
fn begin_in(p: &Program, tags: &Rows<Tags>, method: u32, pc: u32) -> Option<usize>
    ensures { IsFirstBegin pc (slice_get p.now.methods method) (slice_get tags.now method) result }
{
    match p.methods.get(method as usize) {
        Some(m) => match tags.get(method as usize) {
            Some(t) => first_begin(m, t, pc),
            None => None,
        },
        None => None,
    }
}

/// Whether some path reaches the `monitorenter` of a block; a method's own section begins with its
/// frame.
pub fn is_spot_reached(p: &Program, tags: &Rows<Tags>, method: u32, spot: Spot) -> bool
    requires program { IsProgram p.now }
    ensures { TellsReached p.now (tagged_by tags.now) method spot result }
{
    match spot {
        Spot::Method => true,
        Spot::Block(pc) => begin_in(p, tags, method, pc).is_some(),
    }
}
