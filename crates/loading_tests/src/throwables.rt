//! How the classes of exceptions are related.

use code_table::{common_ancestor, is_subclass};
use std::test::*;

/// `Throwable` is below `Object`, and so on, as in the platform's API.
#[test]
fn throwables_have_their_ancestors(rt: HostRuntime) -> Result<(), Fail> {
    let supers = [
        (4, 1),
        (5, 4),
        (6, 4),
        (7, 5),
        (8, 5),
        (9, 7),
        (10, 7),
        (11, 7),
        (12, 7),
        (13, 7),
        (14, 6),
        (15, 6),
    ];
    for (class, above) in supers {
        assert!(rt; is_subclass(class, above) && !is_subclass(above, class));
        assert!(rt; common_ancestor(class, above) == above);
    }
    assert!(rt; common_ancestor(9, 8) == 5);
    assert!(rt; common_ancestor(9, 14) == 4);
    assert!(rt; common_ancestor(9, 17) == 1);
    Ok(())
}
