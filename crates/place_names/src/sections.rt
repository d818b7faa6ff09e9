//! Sections of a program, fact by fact.

ghost use Rattle.std.specs.Prelude.{◌≡◌, ◌++◌, ◌∷◌, [], string_bytes, IfOk, OnOk};
ghost use Rattle.place_names.specs.SectionFacts.{mark_name as the_mark_name, section_spot_facts};
ghost use Rattle.tellings.specs.declared.facts.Fact.TheVariants.{Text as TextFact};

use checked_program::Spot;
use jvm_types::Rows;
use std::alloc::{AllocError, Global};
use tellings::{Fact, Key, add_count, add_text};

/// Adds where a section begins in its method.
pub fn add_section_spot(facts: &mut Rows<Fact>, alloc: Global, spot: Spot) -> Result<(), AllocError>
    ensures { OnOk result (facts.new ≡ facts.old ++ section_spot_facts spot) }
{
    match spot {
        Spot::Method => add_text(facts, alloc, Key::Spot, b"method"),
        Spot::Block(pc) => {
            add_text(facts, alloc, Key::Spot, b"block")?;
            add_count(facts, Key::SpotPc, u64::from(pc))
        }
    }
}

/// The name of a mark, or of a rule: `M5`.
pub fn mark_name(alloc: Global, number: u8) -> Result<String, AllocError>
    ensures { IfOk result (λ name. string_bytes name ≡ the_mark_name number) }
{
    let mut name = String::new(alloc);
    write!(name, "M{number}")?;
    Ok(name)
}

/// Adds the name of a mark, or of a rule.
pub fn add_mark(
    facts: &mut Rows<Fact>,
    alloc: Global,
    key: Key,
    number: u8,
) -> Result<(), AllocError>
    ensures { OnOk result (facts.new ≡ facts.old ++ TextFact key (the_mark_name number) ∷ []) }
{
    let name = mark_name(alloc, number)?;
    add_text(facts, alloc, key, name.as_bytes())
}
