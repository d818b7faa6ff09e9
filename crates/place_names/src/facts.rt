//! Places of a program, fact by fact.

ghost use Rattle.std.specs.Prelude.{◌≡◌, ◌++◌, ◌∷◌, [], Some, option_map, slice_get, OnOk};
ghost use Rattle.std.specs.Option.{option_copied};
ghost use Rattle.place_names.specs.PlaceFacts.{insn_at, insn_facts, method_facts, op_name};
ghost use Rattle.place_names.specs.PlaceFacts.{pc_insn_facts};
ghost use Rattle.place_names.specs.PlaceFacts.{place_facts, source_facts_at, source_line_facts};
ghost use Rattle.run_texts.specs.MarksText.{class_text};
ghost use Rattle.tellings.specs.declared.facts.Fact.TheVariants.{Text as TextFact};
ghost use Rattle.tellings.specs.declared.keys.Key.TheVariants.{Class, Method};

use checked_program::Checked;
use jvm_types::{Insn, MethodInfo, Op, Program, Rows};
use mnemonics::mnemonic;
use run_texts::write_class;
use source_lines::Sources;
use std::alloc::{AllocError, Global};
use tellings::{Fact, Key, add_count, add_text};

fn add_class(
    facts: &mut Rows<Fact>,
    alloc: Global,
    p: &Program,
    class: u16,
) -> Result<(), AllocError>
    ensures { OnOk result
        (facts.new ≡ facts.old ++ TextFact Class (class_text p.now.names class) ∷ []) }
{
    let mut name = Vec::new(alloc);
    write_class(&mut name, p, class)?;
    add_text(facts, alloc, Key::Class, name.as_slice())
}

fn add_name(facts: &mut Rows<Fact>, alloc: Global, m: &MethodInfo) -> Result<(), AllocError>
    ensures { OnOk result
        (facts.new ≡ facts.old ++ TextFact Method (m.now.name ++ m.now.descriptor) ∷ []) }
{
    let mut words = Vec::new(alloc);
    words.extend_from_slice(m.name.as_slice())?;
    words.extend_from_slice(m.descriptor.as_slice())?;
    add_text(facts, alloc, Key::Method, words.as_slice())
}

fn add_names(
    facts: &mut Rows<Fact>,
    alloc: Global,
    p: &Program,
    m: &MethodInfo,
) -> Result<(), AllocError>
    ensures { OnOk result (facts.new ≡ facts.old ++ method_facts p.now.names (Some m.now)) }
{
    add_class(facts, alloc, p, m.class)?;
    add_name(facts, alloc, m)
}

/// Adds the class and the name of the method of that number; nothing where there is none.
pub fn add_method(
    facts: &mut Rows<Fact>,
    alloc: Global,
    p: &Program,
    method: u32,
) -> Result<(), AllocError>
    ensures { OnOk result (facts.new
        ≡ facts.old ++ method_facts p.now.names (slice_get p.now.methods method)) }
{
    match p.methods.get(method as usize) {
        Some(m) => add_names(facts, alloc, p, m),
        None => Ok(()),
    }
}

/// The mnemonic of an instruction, as `Op::opcode` names it.
pub fn op_name(op: &Op) -> &'static str
    ensures { result.now ≡ op_name op.now }
{
    match mnemonic(op.opcode()) {
        Some(name) => name,
        None => "",
    }
}

fn add_insn(facts: &mut Rows<Fact>, alloc: Global, insn: Option<&Insn>) -> Result<(), AllocError>
    ensures { OnOk result (facts.new ≡ facts.old ++ insn_facts (option_copied insn.entry)) }
{
    match insn {
        Some(insn) => add_text(facts, alloc, Key::Instruction, op_name(&insn.op).as_bytes()),
        None => Ok(()),
    }
}

/// Adds a pc, and the mnemonic of the instruction that begins there.
pub fn add_pc(
    facts: &mut Rows<Fact>,
    alloc: Global,
    pc: u32,
    insn: Option<&Insn>,
) -> Result<(), AllocError>
    ensures { OnOk result (facts.new ≡ facts.old ++ pc_insn_facts pc (option_copied insn.entry)) }
{
    add_count(facts, Key::Pc, u64::from(pc))?;
    add_insn(facts, alloc, insn)
}

fn add_source_line(
    facts: &mut Rows<Fact>,
    alloc: Global,
    file: Option<&[u8]>,
    line: Option<u16>,
) -> Result<(), AllocError>
    ensures { OnOk result (facts.new
        ≡ facts.old ++ source_line_facts (option_map (λ name. name.now) file.entry) line) }
{
    match (file, line) {
        (Some(file), Some(line)) => {
            add_text(facts, alloc, Key::SourceOfLine, file)?;
            add_count(facts, Key::LineOfSource, u64::from(line))
        }
        (Some(file), None) => add_text(facts, alloc, Key::SourceAlone, file),
        (None, Some(line)) => add_count(facts, Key::LineAlone, u64::from(line)),
        (None, None) => Ok(()),
    }
}

/// Adds the file of the source of the method of that number, and the line of a pc of it, where its
/// class has them.
pub fn add_source(
    facts: &mut Rows<Fact>,
    alloc: Global,
    sources: &Sources,
    method: u32,
    pc: u32,
) -> Result<(), AllocError>
    ensures { OnOk result (facts.new ≡ facts.old ++ source_facts_at sources.now method pc) }
{
    add_source_line(facts, alloc, sources.file(method), sources.line(method, pc))
}

/// The instruction at a pc of the method of that number, where one begins there.
fn insn_at(c: &Checked, method: u32, pc: u32) -> Option<&Insn>
    ensures { option_copied result ≡ insn_at (slice_get c.now.program.methods method) pc }
{
    match c.program().methods.get(method as usize) {
        Some(m) => match c.number_at(method, pc) {
            Some(i) => m.code.get(i),
            None => None,
        },
        None => None,
    }
}

/// Adds the method of that number, a pc of it and the instruction that begins there, without a
/// mnemonic where none does; and where it stands in the source.
pub fn add_place(
    facts: &mut Rows<Fact>,
    alloc: Global,
    c: &Checked,
    sources: &Sources,
    method: u32,
    pc: u32,
) -> Result<(), AllocError>
    ensures { OnOk result
        (facts.new ≡ facts.old ++ place_facts c.now.program sources.now method pc) }
{
    add_method(facts, alloc, c.program(), method)?;
    add_pc(facts, alloc, pc, insn_at(c, method, pc))?;
    add_source(facts, alloc, sources, method, pc)
}
