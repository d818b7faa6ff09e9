//! Methods with the table of their pcs.

ghost use Rattle.std.specs.Prelude.{◌≡◌, IfOk};
ghost use Rattle.jvm_types.specs.Verifying.{new_class, IsLaidOut};
ghost use Rattle.code_table.specs.PcTables.{number_at, Ascend};
ghost use Rattle.code_table.specs.NewClasses.{class_at_target};

use crate::pc_table::PcTable;
use jvm_types::{MethodInfo, Target};
use std::alloc::{AllocError, Global};
use std::marker::Model;

/// A method whose instructions follow one another, with the number of the instruction at each pc.
/// Contracts see the method.
#[derive(Debug, Drop)]
pub struct IndexedMethod<'a> {
    method: &'a MethodInfo,
    table: PcTable,
}

impl<'a> Model for IndexedMethod<'a> {
    ghost use Rattle.jvm_types.specs.declared.program.MethodInfo.{MethodInfo as Method};
    ghost use Rattle.code_table.specs.PcTables.{IsIndexed};

    ghost Value = { Method };

    ghost view = { λ m. m.method.now };

    ghost invariant = { λ m. IsIndexed m.method.now m.table };
}

/// The class that the target of this number names.
fn class_at(targets: &[Target], number: Option<usize>) -> Option<u16>
    ensures { result ≡ class_at_target targets.now number }
{
    match targets.get(number?) {
        Some(Target::Class(class)) => Some(*class),
        _ => None,
    }
}

impl<'a> IndexedMethod<'a> {
    pub fn of(alloc: Global, method: &'a MethodInfo) -> Result<IndexedMethod<'a>, AllocError>
        requires { IsLaidOut method.now }
        ensures { IfOk result (λ m. m ≡ method.now) }
    {
        let table = PcTable::of(alloc, method.code.as_slice())?;
        Ok(IndexedMethod { method, table })
    }

    /// The method. Its code is laid out, and the pcs ascend.
    pub fn method(&self) -> &'a MethodInfo
        ensures is { result.now ≡ self.now }
        ensures laid { IsLaidOut self.now }
        ensures ascend { Ascend 0 self.now.code }
    {
        self.method
    }

    /// The number of the instruction at a pc, where one begins there.
    pub fn find(&self, pc: u32) -> Option<usize>
        ensures { result ≡ number_at self.now.code pc }
    {
        self.table.find(pc)
    }

    /// The class that the `new` at a pc names.
    pub fn new_class(&self, pc: u32) -> Option<u16>
        ensures { result ≡ new_class self.now.code self.now.targets pc }
    {
        class_at(self.method.targets.as_slice(), self.find(pc))
    }

    /// Tells that the code is laid out, and that its pcs ascend.
    pub fn laid_out(&self)
        ensures laid { IsLaidOut self.now }
        ensures ascend { Ascend 0 self.now.code }
    {
        let _ = &self.table;
    }
}
