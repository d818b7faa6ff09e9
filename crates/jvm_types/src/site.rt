//! Where an instruction stands.

ghost use Rattle.std.specs.Prelude.{◌≡◌};

use std::marker::Model;

/// The method in which an instruction stands: its class, and its name.
#[derive(Drop)]
pub struct Site<'a> {
    pub class: u16,
    pub name: &'a [u8],
}

impl<'a> Model for Site<'a> {
    ghost use Rattle.jvm_types.specs.Members.{MethodSite as Standing};

    ghost Value = { Standing };

    ghost view = { λ s. record { class = s.class; name = s.name.now } };
}
