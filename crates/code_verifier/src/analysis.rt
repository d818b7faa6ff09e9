//! Verification as an analysis by visits.

ghost use Rattle.std.specs.Prelude.{◌≡◌, true};

use crate::entry::entry_frame;
use crate::frames::copy;
use crate::meeting::{clashes, is_same, meet_frames};
use crate::visit::visit;
use code_visits::{Analysis, Frames, Nodes, Stop};
use handler_rows::HandledMethod;
use jvm_types::{MethodInfo, Program, TypeFrame, VRule};
use std::alloc::{AllocError, Global};

/// The bytes that one type takes.
const TYPE_BYTES: usize = 8;

/// Frames of types, which meet where their stacks are as deep.
pub struct Verification;

impl Frames for Verification {
    type Frame = TypeFrame;

    ghost use Rattle.code_visits.specs.TypePlan.{type_meeting};
    ghost use Rattle.code_visits.specs.TypePlan.{type_local_count};
    ghost use Rattle.code_visits.proofs.TypeVisits.{types_meet};

    ghost meeting = { type_meeting };

    ghost width = { type_local_count };

    ghost lawful = { types_meet };

    fn bytes_of(f: &TypeFrame) -> usize {
        f.stack()
            .len()
            .saturating_add(f.first_locals().len())
            .saturating_mul(TYPE_BYTES)
    }

    fn copy(alloc: Global, f: &TypeFrame) -> Result<TypeFrame, AllocError> {
        copy(alloc, f)
    }

    fn clashes(f: &TypeFrame, other: &TypeFrame) -> bool {
        clashes(f, other)
    }

    fn stays(f: &TypeFrame, other: &TypeFrame) -> bool {
        is_same(f, other)
    }

    fn meet(
        alloc: Global,
        f: TypeFrame,
        other: &TypeFrame,
    ) -> Result<(TypeFrame, bool), AllocError> {
        meet_frames(alloc, f, other)
    }
}

impl Analysis for Verification {
    type Rule = VRule;

    const NODE_BYTES: usize = 128;

    ghost use Rattle.std.specs.Prelude.{slice_get};
    ghost use Rattle.jvm_types.specs.Types.{entry_type_frame};
    ghost use Rattle.code_visits.specs.TypePlan.{type_acts_at, types_work};
    ghost use Rattle.code_visits.proofs.TypeRests.{TypesRest, types_rest};

    ghost first = { entry_type_frame };

    ghost acts = { λ p m i f. type_acts_at p m (slice_get m.code i) (slice_get m.targets i) f };

    ghost is_kept = { λ p m nodes. TypesRest p m nodes };

    ghost work = { λ p m nodes. types_work m nodes };

    ghost ends = { types_rest };

    fn first(alloc: Global, m: &MethodInfo) -> Result<TypeFrame, AllocError> {
        entry_frame(alloc, m)
    }

    fn visit(
        alloc: Global,
        p: &Program,
        m: &HandledMethod<'_>,
        nodes: &mut Nodes<TypeFrame>,
        i: usize,
    ) -> Result<(), Stop<VRule>> {
        visit(alloc, p, m, nodes, i)
    }
}
