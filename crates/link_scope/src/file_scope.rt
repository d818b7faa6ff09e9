//! What the names of one file name.

ghost use Rattle.std.specs.Prelude.{◌≡◌, ◌<◌, Some, is_some, slice_get, take, IfOk};
ghost use Rattle.std.specs.Option.{option_map};
ghost use Rattle.jvm_types.specs.ClassNames.{text_at, class_name, class_names};
ghost use Rattle.jvm_types.specs.ClassNames.{class_number as number_of, named_class as class_named};
ghost use Rattle.jvm_types.specs.ClassNames.{file_class};
ghost use Rattle.jvm_types.specs.Descriptors.{field_kind as kind_named};
ghost use Rattle.jvm_types.specs.Descriptors.{method_signature as signature_named};
ghost use Rattle.jvm_types.specs.LinkFaults.{is_taken};
ghost use Rattle.jvm_types.specs.Members.{look_up};
ghost use Rattle.jvm_types.specs.Linked.{scope_of};
ghost use Rattle.descriptors.specs.Signatures.{meaning};
ghost use Rattle.link_scope.specs.Scoping.{IsFound, IsFileOf, repeats};

use crate::scope::{Found, Scope};
use constant_pools::pool_texts::text_at;
use descriptors::Signature;
use jvm_types::{ClassFile, Kind, class_numbers};
use std::alloc::{AllocError, Global};
use std::marker::Model;

/// A file of a scope. Contracts see it as the files of the scope, its number among them and its
/// class. A text is named by an index of the constant pool, and an index that names no text stands
/// for the empty one.
#[derive(Drop)]
pub struct FileScope<'a, 'f> {
    scope: &'a Scope<'f>,
    number: usize,
    class: &'a ClassFile,
}

impl<'a, 'f> Model for FileScope<'a, 'f> {
    ghost use Rattle.link_scope.specs.Scoping.{FileOf, IsFileOf};

    ghost Value = { FileOf };

    ghost view = { λ f. record { files = f.scope.now; number = f.number; class = f.class.now } };

    ghost invariant = { λ f. IsFileOf (record { files = f.scope.now; number = f.number; class = f.class.now }) };
}

impl<'a, 'f> FileScope<'a, 'f> {
    /// The file with a number, whose class is given.
    #[tactic(auto, using(crate::proofs::Files::is_file))]
    pub(crate) fn of(scope: &'a Scope<'f>, number: usize, class: &'a ClassFile) -> Self
        requires { slice_get scope.now number ≡ Some class.now }
        ensures { result ≡ record { files = scope.now; number = number; class = class.now } }
    {
        let _files = scope.files();
        FileScope {
            scope,
            number,
            class,
        }
    }

    /// The number of the file.
    pub fn number(&self) -> u16
        ensures number { result ≡ self.now.number }
        ensures file { IsFileOf self.now }
    {
        self.number as u16
    }

    /// The class of the file.
    pub fn class(&self) -> &'a ClassFile
        ensures class { result.now ≡ self.now.class }
        ensures file { IsFileOf self.now }
    {
        self.class
    }

    /// The number of that class.
    pub fn own_class(&self) -> u16
        ensures { result ≡ file_class self.now.number }
    {
        class_numbers::file_class(self.number)
    }

    /// The text at an index of the pool.
    pub fn text(&self, index: u16) -> &'a [u8]
        ensures { result.now ≡ text_at self.now.class.constants index }
    {
        text_at(&self.class.constants, index)
    }

    /// The number of the class that a text names.
    pub fn class_number(&self, text: u16) -> Option<u16>
        ensures { result
            ≡ number_of (class_names self.now.files) (text_at self.now.class.constants text) }
    {
        let scope = self.scope;
        scope.texts.meaning(self.number, text)?.class
    }

    /// The same, where 0 stands for `java/lang/System`, which has no number.
    pub fn named_class(&self, text: u16) -> Option<u16>
        ensures { result
            ≡ class_named (class_names self.now.files) (text_at self.now.class.constants text) }
    {
        let scope = self.scope;
        scope.texts.meaning(self.number, text)?.named
    }

    /// The type that a field descriptor names.
    pub fn field_kind(&self, text: u16) -> Option<Kind>
        ensures { result
            ≡ kind_named (class_names self.now.files) (text_at self.now.class.constants text) }
    {
        let scope = self.scope;
        scope.texts.meaning(self.number, text)?.kind
    }

    /// Whether a text is a method descriptor.
    pub fn is_method_descriptor(&self, text: u16) -> bool
        ensures { result ≡ is_some (signature_named (class_names self.now.files)
            (text_at self.now.class.constants text)) }
    {
        let scope = self.scope;
        match scope.texts.meaning(self.number, text) {
            Some(meaning) => meaning.is_method,
            None => false,
        }
    }

    /// What a method descriptor says, read anew.
    pub fn signature(&self, alloc: Global, text: u16) -> Result<Option<Signature>, AllocError>
        ensures { IfOk result (λ found.
            option_map meaning found
            ≡ signature_named (class_names self.now.files)
            (text_at self.now.class.constants text)) }
    {
        let scope = self.scope;
        scope.texts.signature(alloc, self.text(text))
    }

    /// The field of a class, or of `Object`, with this name and descriptor (JVMS 5.4.3.2); the
    /// class is 0 for `java/lang/System`.
    pub fn find_field(&self, class: u16, name: u16, descriptor: u16) -> Option<Found>
        ensures { IsFound (text_at self.now.class.constants name) result (look_up
            (scope_of self.now.files).fields class (text_at self.now.class.constants name)
            (text_at self.now.class.constants descriptor)) }
    {
        self.scope.find_field(self.number, class, name, descriptor)
    }

    /// The method of a class, or but for `<init>` of `Object`, with this name and descriptor (JVMS
    /// 5.4.3.3).
    pub fn find_method(&self, class: u16, name: u16, descriptor: u16) -> Option<Found>
        ensures { IsFound (text_at self.now.class.constants name) result (look_up
            (scope_of self.now.files).methods class (text_at self.now.class.constants name)
            (text_at self.now.class.constants descriptor)) }
    {
        self.scope.find_method(self.number, class, name, descriptor)
    }

    /// Whether the field of this number has the name and the descriptor of one before it.
    pub fn repeats_field(&self, number: usize) -> bool
        ensures { result ≡ repeats self.now.class.constants self.now.class.fields number
            (slice_get self.now.class.fields number) }
    {
        let scope = self.scope;
        scope.fields.repeats(self.number, number)
    }

    /// Whether the method of this number has the name and the descriptor of one before it.
    pub fn repeats_method(&self, number: usize) -> bool
        ensures { result ≡ repeats self.now.class.constants self.now.class.methods number
            (slice_get self.now.class.methods number) }
    {
        let scope = self.scope;
        scope.methods.repeats(self.number, number)
    }

    /// Whether the class has the name of an earlier file's or of a built-in class.
    pub fn takes_name(&self) -> bool
        ensures { result ≡ is_taken (take self.now.number (class_names self.now.files))
            (class_name self.now.class) }
    {
        let scope = self.scope;
        scope.texts.takes_name(self.number)
    }
}
