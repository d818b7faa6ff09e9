//! What an event finds.

ghost use Rattle.laws_states.specs.FoundLaws.{HeapWordsFit};

/// The header, field or element that an event finds is what its phase reads it as: a header of a
/// class of the program, a reference of the heap, an int (JVMS 4.10.2.2, 2.3, 2.4).
pub fn heap_words_fit()
    ensures { HeapWordsFit }
{}
