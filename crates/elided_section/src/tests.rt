use crate::{Checkup, compare};
use std::test::*;

#[test]
fn only_the_noted_count_is_the_same(rt: HostRuntime) {
    assert_eq!(rt; compare(3, 12), Checkup::Same);
    assert_eq!(rt;
        compare(3, 16),
        Checkup::Differs {
            noted: 3,
            found: 16
        }
    );
    assert_eq!(rt;
        compare(3, 14),
        Checkup::Differs {
            noted: 3,
            found: 14
        }
    );
}
