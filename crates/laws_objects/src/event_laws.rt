//! What events change of fields and elements that sections read without their lock.

ghost use Rattle.laws_objects.specs.GuardLaws.{EventsKeepGuards};

use laws_sections::{
    elements_written_locked, final_statics_written_inside, finals_written_inside,
    guarded_written_locked, owned_is_decided, statics_written_locked,
};
use laws_states::{class_inits_run_alone, events_reach_sites, sites_differ, sites_lie_inside};

/// Outside attempts a thread changes a guarded field of an object, or an element of an array that
/// was stored in an owned field of it, only where it holds the object's monitor, or its top frame
/// is an `<init>` on that object; a final field of a frozen class only where its top frame is such
/// an `<init>`. It changes a guarded static field only where it holds the monitor of the class, or
/// its top frame is the class's `<clinit>`, while no worker has begun; a final static field only in
/// such a `<clinit>` (PLDI 2010 publication, of read-only sections without their lock).
pub fn events_keep_guards()
    ensures { EventsKeepGuards }
{
    guarded_written_locked();
    elements_written_locked();
    owned_is_decided();
    statics_written_locked();
    finals_written_inside();
    final_statics_written_inside();
    sites_differ();
    sites_lie_inside();
    events_reach_sites();
    class_inits_run_alone();
}
