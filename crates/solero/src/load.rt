//! A run of a load.
ghost use Rattle.std.specs.Prelude.{◌≡◌, ◌∷◌, [], IfErr, IfOk, length};
ghost use Rattle.class_runner.specs.declared.loading.FileError.TheVariants.{Memory};
ghost use Rattle.command_words.specs.Requests.{asked_by};
ghost use Rattle.jvm_types.specs.ClassGrammar.{IsClass};
ghost use Rattle.solero.specs.Answer.{IsFileOfLoad, IsLoadSummary, SumsUp, class_of_load};
ghost use Rattle.solero.specs.Parts.{IsLoadNotMade};

use crate::class_text::bytes_of;
use crate::making::{end_of_run, is_plain};
use checked_program::Checked;
use class_runner::{FileError, load_program, summary};
use command_words::Request;
use jvm_types::{Bytes, ClassFile, Gate, Rows};
use load_classes::{load_class, loads_are_classes};
use program_answers::finish::{Finish, finish_of};
use std::alloc::{AllocError, Global};
use std::sync::Wait;
use std::thread::Threads;

/// How a run finished of the load that is asked for, and its summary, or the rule that refuses the
/// class of the load.
pub fn ran_load<R: Threads + Wait + Sync, G: Gate + Sync>(
    rt: &R,
    alloc: Global,
    gate: &G,
    request: &Request,
) -> Result<(Finish, Bytes), FileError>
    ensures made { IfOk result (λ r. IsLoadSummary (asked_by request.now) r.0 r.1) }
    ensures refused { IfErr result (λ e. IsLoadNotMade (asked_by request.now) e) }
{
    let files = load_file(alloc, request)?;
    let checked = load_program(alloc, &files, request.heap, request.threads)?;
    Ok(summed_up(rt, alloc, gate, request, &checked)?)
}

// The file of the class of the load.
fn load_file(alloc: Global, request: &Request) -> Result<Rows<Bytes>, FileError>
    ensures ok { IfOk result (λ files. IsFileOfLoad (asked_by request.now) files) }
    ensures one { IfOk result (λ files. length files ≡ 1) }
    ensures memory { IfErr result (λ e. e ≡ Memory) }
{
    let class = made_class(alloc, request)?;
    let bytes = bytes_of(alloc, &class)?;
    Ok(one_file(alloc, bytes)?)
}

fn one_file(alloc: Global, bytes: Bytes) -> Result<Rows<Bytes>, AllocError>
    ensures { IfOk result (λ files. files ≡ bytes ∷ []) }
{
    let mut files = Rows::new(alloc);
    files.push(bytes)?;
    Ok(files)
}

// The class of the load.
fn made_class(alloc: Global, request: &Request) -> Result<ClassFile, AllocError>
    ensures made { IfOk result (λ class. class ≡ class_of_load (asked_by request.now)) }
    ensures class { IfOk result IsClass }
{
    loads_are_classes();
    let class = load_class(alloc, request.size, request.seed)?;
    Ok(class)
}

// How a run of its program finished, and the summary of that.
fn summed_up<R: Threads + Wait + Sync, G: Gate + Sync>(
    rt: &R,
    alloc: Global,
    gate: &G,
    request: &Request,
    checked: &Checked,
) -> Result<(Finish, Bytes), AllocError>
    ensures { IfOk result (λ r. SumsUp (asked_by request.now) checked.now r.0 r.1) }
{
    is_plain(checked, &request.cfg);
    let outcome = end_of_run(rt, alloc, gate, request, checked)?;
    let text = summary(alloc, request.size, request.seed, &outcome)?;
    Ok((finish_of(&outcome), text))
}
