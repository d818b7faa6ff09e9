//! Tagging as an analysis by visits.

ghost use Rattle.std.specs.Prelude.{◌≡◌, true};

use crate::after::{copy, frame_at_entry};
use crate::meeting::{clashes, meet_frames, stays};
use crate::visit::visit;
use checked_program::TagFrame;
use code_visits::{Analysis, Frames, Nodes, Stop};
use handler_rows::HandledMethod;
use jvm_types::{MethodInfo, Program, SRule};
use std::alloc::{AllocError, Global};

/// The bytes that one tag takes.
const TAG_BYTES: usize = 8;

/// Frames of tags, which meet where they hold the same monitors.
pub struct Tagging;

impl Frames for Tagging {
    type Frame = TagFrame;

    ghost use Rattle.checked_program.specs.Tagging.{tag_meeting};
    ghost use Rattle.monitor_tags.specs.TagVisits.{tags_meet};

    ghost meeting = { tag_meeting };

    ghost width = { λ f. 0 };

    ghost lawful = { tags_meet };

    fn bytes_of(f: &TagFrame) -> usize {
        f.stack()
            .len()
            .saturating_add(f.locals().kept())
            .saturating_add(f.held().len())
            .saturating_mul(TAG_BYTES)
    }

    fn copy(alloc: Global, f: &TagFrame) -> Result<TagFrame, AllocError> {
        copy(alloc, f)
    }

    fn clashes(f: &TagFrame, other: &TagFrame) -> bool {
        clashes(f, other)
    }

    fn stays(f: &TagFrame, other: &TagFrame) -> bool {
        stays(f, other)
    }

    fn meet(alloc: Global, f: TagFrame, other: &TagFrame) -> Result<(TagFrame, bool), AllocError> {
        meet_frames(alloc, f, other)
    }
}

impl Analysis for Tagging {
    type Rule = SRule;

    const NODE_BYTES: usize = 160;

    ghost use Rattle.std.specs.Prelude.{slice_get};
    ghost use Rattle.checked_program.specs.LockTags.{entry_tags};
    ghost use Rattle.checked_program.specs.Tagging.{acts_at, tag_plan};
    ghost use Rattle.laws_sections.proofs.TagRanks.{tag_ranks};
    ghost use Rattle.laws_sections.proofs.VisitsEnd.{work};
    ghost use Rattle.monitor_tags.specs.TagVisits.{TagsKept, tags_end};

    ghost first = { entry_tags };

    ghost acts = { λ p m i f. acts_at p m (slice_get m.code i) (slice_get m.targets i) f };

    ghost is_kept = { λ p m nodes. TagsKept p m nodes };

    ghost work = { λ p m nodes. work (tag_plan p m) (tag_ranks p m) nodes };

    ghost ends = { λ p m laid. tags_end p m };

    fn first(alloc: Global, m: &MethodInfo) -> Result<TagFrame, AllocError> {
        frame_at_entry(alloc, m)
    }

    fn visit(
        alloc: Global,
        p: &Program,
        m: &HandledMethod<'_>,
        nodes: &mut Nodes<TagFrame>,
        i: usize,
    ) -> Result<(), Stop<SRule>> {
        visit(alloc, p, m, nodes, i)
    }
}
