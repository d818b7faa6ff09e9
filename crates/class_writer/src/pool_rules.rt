//! Tests of the constant pool (JVMS 4.4).

ghost use Rattle.std.specs.Prelude.{◌≡◌, true};
ghost use Rattle.std.specs.List.{list_all};
ghost use Rattle.class_writer.specs.Testing.{has_due_gaps, is_utf8_byte, is_constant, is_pool};

use constant_pools::index_kinds::{is_wide, names};
use jvm_types::class_file::TEXT_BYTES_END;
use jvm_types::{Bytes, Constant, IndexKind, Rows};

/// Whether a gap stands at index 0 and behind each `Long` and `Double`, and nowhere else.
fn has_due_gaps(pool: &Rows<Constant>) -> bool
    ensures { result ≡ has_due_gaps true pool.now }
{
    let mut is_due = true;
    for constant in pool.as_slice() {
        if matches!(constant, Constant::Gap) != is_due {
            return false;
        }
        is_due = is_wide(constant);
    }
    !is_due
}

/// Whether a text may have these bytes (JVMS 4.4.7).
fn is_utf8(text: &Bytes) -> bool
    ensures { result ≡ list_all is_utf8_byte text.now }
{
    text.as_slice()
        .iter()
        .all(|b| 0 < *b && *b < TEXT_BYTES_END)
}

/// Whether a text may have its bytes, or the indices of another entry name what they have to.
fn is_constant(pool: &Rows<Constant>, constant: &Constant) -> bool
    ensures { result ≡ is_constant pool.now constant.now }
{
    match constant {
        Constant::Utf8(text) => is_utf8(text),
        Constant::Class(index) | Constant::Text(index) => names(IndexKind::Utf8, pool, *index),
        Constant::Field(class, member)
        | Constant::Method(class, member)
        | Constant::InterfaceMethod(class, member) => {
            names(IndexKind::Class, pool, *class) && names(IndexKind::NameAndType, pool, *member)
        }
        Constant::NameAndType(name, descriptor) => {
            names(IndexKind::Utf8, pool, *name) && names(IndexKind::Utf8, pool, *descriptor)
        }
        _ => true,
    }
}

fn are_constants(pool: &Rows<Constant>) -> bool
    ensures { result ≡ list_all (is_constant pool.now) pool.now }
{
    pool.as_slice().iter().all(|c| is_constant(pool, c))
}

/// Whether the pool keeps the rules of its entries.
pub fn is_pool(pool: &Rows<Constant>) -> bool
    ensures { result ≡ is_pool pool.now }
{
    has_due_gaps(pool) && are_constants(pool)
}
