//! Laws of listings: `Lists text c` says that the text is the listing of the class `c`.

ghost use Rattle.assembler.specs.Assembling.{HasAtMostOneListing, ListingsAreFormed};
ghost use Rattle.assembler.specs.Assembling.{ListsAtMostOneClass};

/// No class has two listings.
pub fn one_listing()
    ensures { HasAtMostOneListing }
{}

/// No text lists two classes.
pub fn one_class()
    ensures { ListsAtMostOneClass }
{}

/// Each line of a listing has a form at its place, so that a text with one that has none lists no
/// class.
pub fn listings_are_formed()
    ensures { ListingsAreFormed }
{}
