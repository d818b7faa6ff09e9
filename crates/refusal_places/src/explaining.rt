//! What is said of a refusal.

ghost use Rattle.std.specs.Prelude.{◌≡◌, ◌++◌, ◌∷◌, ◌≤◌, bytes_eq, length, map, slice_get};
ghost use Rattle.std.specs.Prelude.{string_bytes, [], IfErr, IfOk, OnOk};
ghost use Rattle.std.specs.List.{AllZip};
ghost use Rattle.std.specs.Option.{option_copied, unwrap_or};
ghost use Rattle.descriptors.specs.NameTables.{names_in};
ghost use Rattle.refusal_places.specs.Explained.{Explains, IsClassSpelled, class_among, facts_of};
ghost use Rattle.refusal_places.specs.Explained.{found_facts, instead_in as the_instead_in};
ghost use Rattle.refusal_places.specs.Explained.{is_main as is_the_main};
ghost use Rattle.refusal_places.specs.Explained.{main_mend as the_main_mend};
ghost use Rattle.refusal_places.specs.Explained.{mend_in as the_mend_in, mend_of as the_mend_of};
ghost use Rattle.refusal_places.specs.Explained.{offset_facts, spelled_name as the_name};
ghost use Rattle.refusal_places.specs.Explained.{spelled_names, told_facts};
ghost use Rattle.refusal_places.specs.Explained.{method_number_facts, refusal_facts};
ghost use Rattle.refusal_places.specs.Explained.{told_of as the_told_of};
ghost use Rattle.refusal_places.specs.Explained.{told_root as the_told_root};
ghost use Rattle.run_texts.specs.Refusal.{refusal_words};
ghost use Rattle.tellings.specs.declared.facts.Fact.TheVariants.{Words as the_words};

use crate::naming::{behind, code_bytes, tell_class};
use crate::opcode_mends::opcode_mend;
use crate::roots::{Root, is_text, wrong_root};
use crate::sentences::{instead, means};
use crate::spots::{Spot, spot_of};
use class_reader::{ReadError, read_class};
use constant_pools::pool_texts::{class_name, text_at};
use descriptors::ClassNumbers;
use json_lines::Form;
use jvm_types::limits::MOST_FILES;
use jvm_types::{Bytes, ClassFile, Constant, KRule, LRule, Member, NO_METHOD, Place, Rows, Rule};
use run_texts::{RefusalText, rule_name};
use std::alloc::{AllocError, Global};
use tellings::{Fact, Key, add_count, add_text, write_told};

/// What a refusal is told of: a file by its number, and what in its class.
#[derive(Clone, Copy, Debug, PartialEq, Eq)]
pub struct Told {
    pub file: usize,
    pub spot: Spot,
}

// The class that the bytes spell; None: they spell none.
fn class_in(alloc: Global, bytes: &Bytes) -> Result<Option<ClassFile>, AllocError>
    ensures { IfOk result (IsClassSpelled bytes.now) }
{
    match read_class(alloc, bytes) {
        Ok(class) => Ok(Some(class)),
        Err(ReadError::Refused(_, _)) => Ok(None),
        Err(ReadError::Memory) => Err(AllocError),
    }
}

fn classes_in(alloc: Global, contents: &[Bytes]) -> Result<Rows<Option<ClassFile>>, AllocError>
    ensures { IfOk result (AllZip IsClassSpelled contents.now) }
{
    let mut classes = Rows::new(alloc);
    for bytes in contents {
        classes.push(class_in(alloc, bytes)?)?;
    }
    Ok(classes)
}

fn spelled_name(class: &Option<ClassFile>) -> &[u8]
    ensures { result.now ≡ the_name class.now }
{
    match class {
        Some(class) => class_name(class),
        None => &[],
    }
}

fn spelled_names_of(alloc: Global, classes: &[Option<ClassFile>]) -> Result<Rows<&[u8]>, AllocError>
    ensures { IfOk result (λ names. names_in names ≡ spelled_names classes.now) }
{
    let mut names = Rows::new(alloc);
    for class in classes {
        names.push(spelled_name(class))?;
    }
    Ok(names)
}

fn class_of(classes: &[Option<ClassFile>], file: usize) -> Option<&ClassFile>
    ensures { option_copied result ≡ class_among classes.now file }
{
    match classes.get(file) {
        Some(Some(class)) => Some(class),
        Some(None) => None,
        None => None,
    }
}

fn told_root(place: Place, root: Option<Root>) -> Told
    ensures { result ≡ the_told_root place root }
{
    match root {
        Some(root) => Told {
            file: root.file,
            spot: Spot::Method(root.method),
        },
        None => Told {
            file: usize::from(place.file),
            spot: spot_of(Rule::L(LRule::L4), place),
        },
    }
}

// What the refusal is told of.
fn told_of(rule: Rule, place: Place, classes: &[Option<ClassFile>]) -> Told
    ensures { result ≡ the_told_of rule place classes.now }
{
    match rule {
        Rule::L(LRule::L4) => told_root(place, wrong_root(classes)),
        _ => Told {
            file: usize::from(place.file),
            spot: spot_of(rule, place),
        },
    }
}

fn tell_offset(facts: &mut Rows<Fact>, spot: Spot) -> Result<(), AllocError>
    ensures { OnOk result (facts.new ≡ facts.old ++ offset_facts spot) }
{
    match spot {
        Spot::Offset(at) => add_count(facts, Key::Offset, u64::from(at)),
        _ => Ok(()),
    }
}

fn tell_found(
    facts: &mut Rows<Fact>,
    alloc: Global,
    names: &ClassNumbers<'_>,
    class: Option<&ClassFile>,
    spot: Spot,
) -> Result<(), AllocError>
    ensures { OnOk result
        (facts.new ≡ facts.old ++ found_facts names.now (option_copied class.entry) spot) }
{
    match class {
        Some(class) => tell_class(facts, alloc, names, class, spot),
        None => tell_offset(facts, spot),
    }
}

// What to write in the place of the instruction at the front of a code.
fn mend_of(code: &[u8]) -> &'static str
    ensures { result.now ≡ the_mend_of code.now }
{
    match code {
        [opcode, ..] => opcode_mend(*opcode),
        [] => instead(Rule::K(KRule::K1)),
    }
}

fn mend_in(pc: u32, method: Option<&Member>) -> &'static str
    ensures { result.now ≡ the_mend_in pc (option_copied method.entry) }
{
    match method {
        Some(m) => mend_of(behind(pc, code_bytes(m.attrs.as_slice()))),
        None => instead(Rule::K(KRule::K1)),
    }
}

fn is_main(pool: &Rows<Constant>, method: &Member) -> bool
    ensures { result ≡ is_the_main pool.now method.now }
{
    is_text(text_at(pool, method.name), b"main")
        && is_text(text_at(pool, method.descriptor), b"([Ljava/lang/String;)V")
}

fn main_mend(pool: &Rows<Constant>, method: Option<&Member>) -> &'static str
    ensures { result.now ≡ the_main_mend pool.now (option_copied method.entry) }
{
    match method {
        Some(m) if is_main(pool, m) => "public static void init(), without arguments",
        Some(_) => instead(Rule::L(LRule::L1)),
        None => instead(Rule::L(LRule::L1)),
    }
}

// What is accepted in the place of what a rule refuses there.
fn instead_in(rule: Rule, spot: Spot, class: Option<&ClassFile>) -> &'static str
    ensures { result.now ≡ the_instead_in rule spot (option_copied class.entry) }
{
    match (rule, spot, class) {
        (Rule::K(KRule::K1), Spot::Instruction(method, pc), Some(class)) => {
            mend_in(pc, class.methods.get(usize::from(method)))
        }
        (Rule::L(LRule::L1), Spot::Use(method, _), Some(class)) => {
            main_mend(&class.constants, class.methods.get(usize::from(method)))
        }
        _ => instead(rule),
    }
}

#[tactic(auto, unfolding(crate::specs::Explained::method_number_facts))]
fn tell_method_number(facts: &mut Rows<Fact>, method: u16) -> Result<(), AllocError>
    ensures { OnOk result (facts.new ≡ facts.old ++ method_number_facts method) }
{
    if method == NO_METHOD {
        Ok(())
    } else {
        add_count(facts, Key::MethodNumber, u64::from(method))
    }
}

// The words of the line of a refusal.
fn tell_words(
    facts: &mut Rows<Fact>,
    alloc: Global,
    rule: Rule,
    place: Place,
) -> Result<(), AllocError>
    ensures { OnOk result (facts.new ≡ facts.old ++ the_words (refusal_words rule place) ∷ []) }
{
    let refusal = RefusalText(rule, place);
    let mut words = String::new(alloc);
    write!(words, "{refusal}")?;
    facts.push(Fact::Words(Bytes::from_slice(alloc, words.as_bytes())?))
}

// The line of a refusal, its rule, and the numbers of its place.
fn tell_refusal(
    facts: &mut Rows<Fact>,
    alloc: Global,
    rule: Rule,
    place: Place,
) -> Result<(), AllocError>
    ensures { OnOk result (facts.new ≡ facts.old ++ refusal_facts rule place) }
{
    tell_words(facts, alloc, rule, place)?;
    let name = rule_name(alloc, rule)?;
    add_text(facts, alloc, Key::Rule, name.as_slice())?;
    add_count(facts, Key::FileNumber, u64::from(place.file))?;
    tell_method_number(facts, place.method)?;
    add_count(facts, Key::At, u64::from(place.at))
}

fn tell_all(
    facts: &mut Rows<Fact>,
    alloc: Global,
    rule: Rule,
    name: &[u8],
    names: &ClassNumbers<'_>,
    class: Option<&ClassFile>,
    spot: Spot,
) -> Result<(), AllocError>
    ensures { OnOk result (facts.new
        ≡ facts.old ++ told_facts rule name.now names.now (option_copied class.entry) spot) }
{
    add_text(facts, alloc, Key::File, name)?;
    tell_found(facts, alloc, names, class, spot)?;
    add_text(facts, alloc, Key::Means, means(rule).as_bytes())?;
    let mend = instead_in(rule, spot, class);
    add_text(facts, alloc, Key::Instead, mend.as_bytes())
}

// The name of the file of a number.
fn file_name(files: &[String], file: usize) -> &[u8]
    ensures { result.now
        ≡ unwrap_or (slice_get (map (λ word. string_bytes word) files.now) file) [] }
{
    match files.get(file) {
        Some(name) => name.as_bytes(),
        None => &[],
    }
}

fn tell_told(
    facts: &mut Rows<Fact>,
    alloc: Global,
    rule: Rule,
    files: &[String],
    classes: &[Option<ClassFile>],
    told: Told,
) -> Result<(), AllocError>
    requires { length classes.now ≤ MOST_FILES }
    ensures { OnOk result (facts.new ≡ facts.old
        ++ facts_of rule (map (λ word. string_bytes word) files.now) classes.now told) }
{
    let names = ClassNumbers::of(alloc, spelled_names_of(alloc, classes)?)?;
    let name = file_name(files, told.file);
    tell_all(
        facts,
        alloc,
        rule,
        name,
        &names,
        class_of(classes, told.file),
        told.spot,
    )
}

/// What is said of a refusal by a rule at a place: the line of it, the file by its name, and then,
/// in the class that the content of the file spells, the class and what the place is of by name,
/// with the line of the source where the class has line numbers (JVMS 4.7.8); the rule in a
/// sentence, and what to write instead. Where the content spells no class the offset stands in
/// place of the names; so it does where no contents are given, since a file was too long to be
/// read. A method that is a wrong one to begin with (L4) is told in the file where it stands.
pub fn explained_refusal(
    alloc: Global,
    form: Form,
    rule: Rule,
    place: Place,
    files: &[String],
    contents: &[Bytes],
) -> Result<Bytes, AllocError>
    requires { length contents.now ≤ MOST_FILES }
    ensures { IfOk result (λ text.
        Explains form rule place (map (λ word. string_bytes word) files.now) contents.now text) }
{
    let classes = classes_in(alloc, contents)?;
    let what = told_of(rule, place, classes.as_slice());
    let mut facts = Rows::new(alloc);
    tell_refusal(&mut facts, alloc, rule, place)?;
    tell_told(&mut facts, alloc, rule, files, classes.as_slice(), what)?;
    let mut out = Vec::new(alloc);
    write_told(&mut out, alloc, form, "refusal", facts.as_slice())?;
    Ok(Bytes::from_vec(out))
}
