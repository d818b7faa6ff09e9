//! The tree of classes, by their numbers.

ghost use Rattle.std.specs.Prelude.{◌≡◌};
ghost use Rattle.jvm_types.specs.Numbers.{has_number};
ghost use Rattle.jvm_types.specs.ClassTree.{super_class, ancestors, is_subclass, first_above};
ghost use Rattle.jvm_types.specs.ClassTree.{common_ancestor};

use jvm_types::class_numbers::OBJECT_CLASS;

/// The class just above each built-in one, by its number.
const BUILT_IN_SUPERS: [u16; 16] = [1, 1, 1, 1, 1, 4, 4, 5, 5, 7, 7, 7, 7, 7, 6, 6];

fn super_class(class: u16) -> u16
    ensures { result ≡ super_class class }
{
    match BUILT_IN_SUPERS.get(usize::from(class)) {
        Some(above) => *above,
        None => OBJECT_CLASS,
    }
}

/// A class and those above it. No class is more than four steps from `Object`, which is above
/// itself.
fn ancestors(class: u16) -> [u16; 5]
    ensures { result ≡ ancestors class }
{
    let second = super_class(class);
    let third = super_class(second);
    let fourth = super_class(third);
    [class, second, third, fourth, super_class(fourth)]
}

fn has_number(numbers: &[u16], number: u16) -> bool
    ensures { result ≡ has_number numbers.now number }
{
    for n in numbers {
        if *n == number {
            return true;
        }
    }
    false
}

/// Whether a class is another or below it.
#[tactic(auto, unfolding(jvm_types::specs::ClassTree::is_subclass))]
pub fn is_subclass(class: u16, other: u16) -> bool
    ensures { result ≡ is_subclass class other }
{
    has_number(&ancestors(class), other)
}

/// The first of some classes that another is below.
fn first_above(other: u16, classes: &[u16]) -> u16
    ensures { result ≡ first_above other classes.now }
{
    for class in classes {
        if is_subclass(other, *class) {
            return *class;
        }
    }
    OBJECT_CLASS
}

/// The nearest common ancestor of two classes.
#[tactic(auto, unfolding(jvm_types::specs::ClassTree::common_ancestor))]
pub fn common_ancestor(class: u16, other: u16) -> u16
    ensures { result ≡ common_ancestor class other }
{
    first_above(other, &ancestors(class))
}
