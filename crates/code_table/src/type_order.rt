//! The order of types.

ghost use Rattle.std.specs.Prelude.{◌≡◌};
ghost use Rattle.jvm_types.specs.Types.{is_below, meet, same_type, is_uninitialised, is_new};

use crate::class_tree::{common_ancestor, is_subclass};
use jvm_types::VType;

/// Whether a type says what another says, or more.
pub fn is_below(t: VType, u: VType) -> bool
    ensures { result ≡ is_below t u }
{
    match (t, u) {
        (_, VType::Top)
        | (VType::Int, VType::Int)
        | (VType::Null, VType::Null | VType::Ref(_))
        | (VType::This, VType::This) => true,
        (VType::Ref(class), VType::Ref(other)) => is_subclass(class, other),
        (VType::New(pc), VType::New(at)) => pc == at,
        _ => false,
    }
}

/// The least type that two are below.
#[tactic(auto, using(crate::proofs::MeetLaws::meet_same_class))]
pub fn meet(t: VType, u: VType) -> VType
    ensures { result ≡ meet t u }
{
    match (t, u) {
        (VType::Int, VType::Int) | (VType::Null, VType::Null) | (VType::This, VType::This) => t,
        (VType::Null, VType::Ref(class)) | (VType::Ref(class), VType::Null) => VType::Ref(class),
        (VType::Ref(class), VType::Ref(other)) if class == other => t,
        (VType::Ref(class), VType::Ref(other)) => VType::Ref(common_ancestor(class, other)),
        (VType::New(pc), VType::New(at)) if pc == at => t,
        _ => VType::Top,
    }
}

pub fn same_type(t: VType, u: VType) -> bool
    ensures { result ≡ same_type t u }
{
    match (t, u) {
        (VType::Int, VType::Int)
        | (VType::Null, VType::Null)
        | (VType::This, VType::This)
        | (VType::Top, VType::Top) => true,
        (VType::Ref(class), VType::Ref(other)) => class == other,
        (VType::New(pc), VType::New(at)) => pc == at,
        _ => false,
    }
}

/// Whether no `<init>` was called on the object.
pub fn is_uninitialised(t: VType) -> bool
    ensures { result ≡ is_uninitialised t }
{
    matches!(t, VType::This | VType::New(_))
}

/// Whether the object is uninitialised, and of a `new`.
pub fn is_new(t: VType) -> bool
    ensures { result ≡ is_new t }
{
    matches!(t, VType::New(_))
}
