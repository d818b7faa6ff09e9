//! What a place is of.

ghost use Rattle.std.specs.Prelude.{◌≡◌};
ghost use Rattle.refusal_places.specs.Spots.{class_spot as the_class_spot};
ghost use Rattle.refusal_places.specs.Spots.{code_spot as the_code_spot};
ghost use Rattle.refusal_places.specs.Spots.{link_spot as the_link_spot};
ghost use Rattle.refusal_places.specs.Spots.{method_spot as the_method_spot, spot as the_spot};

use jvm_types::{KRule, LRule, NO_METHOD, Place, Rule};

/// What a place is of. A method, a field and a handler row are told by their numbers, an
/// instruction by its pc.
#[derive(Clone, Copy, Debug, PartialEq, Eq)]
pub enum Spot {
    /// A byte of a file.
    Offset(u32),
    /// The class.
    Whole,
    /// A field.
    Field(u32),
    /// A method.
    Method(usize),
    /// A handler row of a method.
    Row(u16, u32),
    /// An instruction of a method.
    Instruction(u16, u32),
    /// What an instruction uses, or a handler row that begins there.
    Use(u16, u32),
}

fn code_spot(rule: KRule, place: Place) -> Spot
    ensures { result ≡ the_code_spot rule place }
{
    match rule {
        KRule::K4 => Spot::Row(place.method, place.at),
        KRule::K5 => Spot::Method(usize::from(place.method)),
        _ => Spot::Instruction(place.method, place.at),
    }
}

fn class_spot(rule: LRule, at: u32) -> Spot
    ensures { result ≡ the_class_spot rule at }
{
    match rule {
        LRule::L1 => Spot::Field(at),
        LRule::L5 if at == 0 => Spot::Whole,
        LRule::L5 => Spot::Field(at),
        _ => Spot::Whole,
    }
}

fn method_spot(rule: LRule, method: u16, at: u32) -> Spot
    ensures { result ≡ the_method_spot rule method at }
{
    match rule {
        LRule::L5 | LRule::L9 => Spot::Method(usize::from(method)),
        LRule::L1 => Spot::Use(method, at),
        _ => Spot::Instruction(method, at),
    }
}

fn link_spot(rule: LRule, in_class: bool, method: u16, at: u32) -> Spot
    ensures { result ≡ the_link_spot rule in_class method at }
{
    if in_class {
        class_spot(rule, at)
    } else {
        method_spot(rule, method, at)
    }
}

/// What the place of a refusal by a rule is of.
pub fn spot_of(rule: Rule, place: Place) -> Spot
    ensures { result ≡ the_spot rule place }
{
    match rule {
        Rule::K(rule) => code_spot(rule, place),
        Rule::L(rule) => { link_spot(rule, place.method == NO_METHOD, place.method, place.at) }
        Rule::V(_) | Rule::S(_) => Spot::Instruction(place.method, place.at),
        Rule::C(_) | Rule::A(_) => Spot::Offset(place.at),
    }
}
