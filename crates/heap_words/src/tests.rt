use crate::{
    array_size, bits_word, header, header_class, header_length, header_word, out_object,
    owner_word, place, ready, thrown_of, variable_word,
};
use jvm_types::Thrown;
use machine_types::Variable;
use std::test::*;

#[test]
fn words_stand_as_laid_out(rt: HostRuntime) {
    assert_eq!(rt; owner_word(0), 4);
    assert_eq!(rt; bits_word(1023), 2051);
    assert_eq!(rt; ready(Thrown::ArithmeticException), 2052);
    assert_eq!(rt; ready(Thrown::StackOverflowError), 2064);
    assert_eq!(rt; out_object(), 2066);
    assert_eq!(rt; header_word(2070), 2071);
    assert_eq!(rt; place(2070, 0), 2072);
    assert_eq!(rt; variable_word(Variable::Instance(2070, 3)), 2075);
    assert_eq!(rt; array_size(2024), 2026);
}

#[test]
fn headers_tell_class_and_length(rt: HostRuntime) {
    let word = header(2, 5);
    assert_eq!(rt; word, 327_682);
    assert_eq!(rt; header_class(word), 2);
    assert_eq!(rt; header_length(word), 5);
    assert_eq!(rt; thrown_of(15), Some(Thrown::StackOverflowError));
    assert_eq!(rt; thrown_of(16), None);
}
