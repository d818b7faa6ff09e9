//! The end of a section without its lock.

ghost use Rattle.laws_refinement.specs.ElidedSteps.{SectionsFinish};

use laws_states::sites_differ;

/// Where a section is done that ran without its lock, and the lock word is as it was noted, its
/// entry, what it did and its exit are a run of the plain machine, which counts as many
/// instructions as the attempt began, and one section (PLDI 2010 publication, of read-only sections
/// without their lock; JVMS 2.11.10).
pub fn sections_finish()
    ensures { SectionsFinish }
{
    sites_differ();
}
