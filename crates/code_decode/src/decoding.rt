//! Decoding the code of a method (JVMS 4.7.3, 4.9, 6.5).

ghost use Rattle.std.specs.Prelude.{◌≡◌, ◌≤◌, length, List, IfOk, IfErr};
ghost use Rattle.std.specs.Result.{result_err};
ghost use Rattle.jvm_types.specs.CodeFault.{or_else};
ghost use Rattle.jvm_types.specs.CodeGrammar.{IsCode};
ghost use Rattle.jvm_types.specs.declared.code.Insn.{Insn as Instruction};
ghost use Rattle.code_decode.specs.Marking.{IsCodeDecoded, IsFirstCodeFault, IsWantOfMemory};
ghost use Rattle.code_decode.specs.Marking.{unmarked_branch, unmarked_row};

use crate::error::{CodeError, Fault};
use crate::marks::{check_branches, check_handlers};
use crate::sweep::{Sweep, sweep_code};
use jvm_types::limits::{MOST_CODE_BYTES, MOST_COUNTED};
use jvm_types::{Bytes, Handler, Insn, KRule, Rows};
use std::alloc::Global;

/// K3 or K4, where the code or a row breaks it. The code has `size` bytes.
fn check_places(swept: &Sweep, size: usize, rows: &[Handler]) -> Result<(), Fault>
    requires { length rows.now ≤ MOST_COUNTED }
    ensures { result_err result ≡ or_else (unmarked_branch swept.now.starts swept.now.branchings)
        (unmarked_row swept.now.starts size 0 rows.now) }
{
    let marks = swept.starts.as_slice();
    check_branches(marks, swept.branchings.as_slice())?;
    check_handlers(marks, size, rows)
}

fn decode_slice(alloc: Global, code: &[u8], rows: &[Handler]) -> Result<Rows<Insn>, CodeError>
    requires { length rows.now ≤ MOST_COUNTED }
    ensures is { IsCodeDecoded code.now rows.now result }
    ensures code { IfOk result (λ insns. IsCode code.now rows.now insns) }
{
    let size = code.len();
    if size == 0 || size > MOST_CODE_BYTES {
        return Err(CodeError::Refused(KRule::K5, 0));
    }
    let mut swept = sweep_code(alloc, code)?;
    check_places(&swept, size, rows)?;
    // a program keeps its instructions, so they have no spare room
    swept.insns.shrink_to_fit();
    Ok(Rows::from_vec(swept.insns))
}

/// The instructions of the code of a method with these handler rows, of which there are at most
/// 65,535 (JVMS 4.7.3, 4.9, 6.5). The first rule that the code breaks refuses it: K5 goes first,
/// then K1, K2 and K6 in one pass by pc, then K3 by pc, then K4 by rows. The code takes time in
/// proportion to its length.
pub fn decode(alloc: Global, code: &Bytes, rows: &Rows<Handler>) -> Result<Rows<Insn>, CodeError>
    requires { length rows.now ≤ MOST_COUNTED }
    ensures ok { IfOk result (λ insns. IsCode code.now rows.now insns) }
    ensures only { (insns : List Instruction) → IsCode code.now rows.now insns
        → IfOk result (λ found. found ≡ insns) }
    ensures spelled { (insns : List Instruction) → IsCode code.now rows.now insns
        → IfErr result (λ e. IsWantOfMemory e) }
    ensures refused { IfErr result (λ e. IsFirstCodeFault code.now rows.now e) }
{
    decode_slice(alloc, code.as_slice(), rows.as_slice())
}
