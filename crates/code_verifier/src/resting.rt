//! Instructions that rest, to whose handlers another need not bring the same locals again.

ghost use Rattle.std.specs.Prelude.{◌≡◌, ◌≢◌, ◌<◌, true, false};
ghost use Rattle.std.specs.Option.{IfSome};
ghost use Rattle.code_visits.specs.Analyses.{AreUnderVisit};
ghost use Rattle.code_visits.specs.TypePlan.{type_plan, type_local_count};
ghost use Rattle.code_visits.proofs.TypeRests.{TypesRest, AreTypesSound};
ghost use Rattle.code_verifier.specs.Visiting.{HasLocals, HaveLocals, DoRowsRest, HasSameLocals};

use crate::type_lists::same_types;
use code_visits::Nodes;
use handler_rows::HandledMethod;
use jvm_types::{Program, TypeFrame, VType};

/// The number that a key begins with, and the one that it is multiplied by for each type: those of
/// Fowler, Noll and Vo's hash.
const KEY_BASIS: u64 = 14695981039346656037;

const KEY_PRIME: u64 = 1099511628211;

/// A number for a type. No clause says which: it serves to find frames again.
fn number_of(t: VType) -> u32 {
    match t {
        VType::Int => 0,
        VType::Null => 1,
        VType::This => 2,
        VType::Top => 3,
        VType::Ref(class) => 4 + u32::from(class),
        VType::New(pc) => pc.wrapping_mul(2).wrapping_add(131072),
    }
}

/// A number for the locals of a frame, by which frames of the same locals are found.
pub fn key_of(f: &TypeFrame) -> u64 {
    let mut key = KEY_BASIS;
    for t in f.first_locals() {
        key = (key ^ u64::from(number_of(*t))).wrapping_mul(KEY_PRIME);
    }
    key
}

/// Whether two frames have the same locals; it may be told not to be where last locals of which
/// nothing is known are kept in one of them alone.
fn has_same_locals(f: &TypeFrame, other: &TypeFrame) -> bool
    requires { type_local_count f.now ≡ type_local_count other.now }
    ensures { result ≡ true → HasSameLocals f.now other.now }
{
    if f.is_ready() != other.is_ready() {
        return false;
    }
    same_types(f.first_locals(), other.first_locals())
}

/// The pc behind the instruction of a number, where that stands before a pc, rests and has the same
/// locals as a frame: what it brought to handlers, the frame need not bring again.
fn behind(
    p: &Program,
    m: &HandledMethod<'_>,
    nodes: &Nodes<TypeFrame>,
    i: usize,
    j: usize,
    pc: u32,
    f: &TypeFrame,
) -> Option<u32>
    requires level { HaveLocals m.now nodes.now }
    requires locals { HasLocals m.now f.now }
    requires kept { AreUnderVisit (TypesRest p.now m.now) i nodes.now }
    ensures { IfSome result (λ from. DoRowsRest m.now pc f.now from nodes.now m.now.rows) }
{
    if i == j || !nodes.rests(j) {
        return None;
    }
    let method = m.method();
    let (Some(other), Some(_target)) = (method.code.get(j), method.targets.get(j)) else {
        return None;
    };
    let frame = nodes.frame(j)?;
    if pc <= other.pc || !has_same_locals(f, frame) {
        return None;
    }
    Some(other.pc + 1)
}

/// The pc from which on rows that cover a pc have to be looked at for a frame; all of them from 0
/// on.
pub fn first_to_look_at(
    p: &Program,
    m: &HandledMethod<'_>,
    nodes: &Nodes<TypeFrame>,
    i: usize,
    pc: u32,
    kept: &Option<TypeFrame>,
) -> u32
    requires level { HaveLocals m.now nodes.now }
    requires locals { IfSome kept.now (HasLocals m.now) }
    requires kept { AreUnderVisit (TypesRest p.now m.now) i nodes.now }
    ensures { IfSome kept.now (λ f. DoRowsRest m.now pc f result nodes.now m.now.rows) }
{
    let Some(f) = kept else {
        return 0;
    };
    let Some(j) = nodes.noted(key_of(f)) else {
        return 0;
    };
    behind(p, m, nodes, i, j, pc, f).unwrap_or(0)
}
