//! Which word an event accesses.

ghost use Rattle.laws_states.specs.SiteLaws.{EventsReachSites, SitesDiffer, SitesLieInside};

use machine_types::start_lies_apart;

/// No word stands for two things: two fields, a field and a lock, a header and an owner of a
/// monitor record.
pub fn sites_differ()
    ensures { SitesDiffer }
{
    start_lies_apart();
}

/// Whatever stands there is one of the words.
pub fn sites_lie_inside()
    ensures { SitesLieInside }
{
    start_lies_apart();
}

/// The event that a thread makes next accesses what its phase says: a lock word, the owner or the
/// waiting bits of a monitor record, a header, a field or an element that is there, a counter, or
/// the header of the object that it makes.
pub fn events_reach_sites()
    ensures { EventsReachSites }
{}
