//! Sets with members on both sides of each word.
use crate::InstanceSet;

const NUMBERS: [u32; 8] = [0, 63, 64, 127, 128, 191, 192, 255];

fn set_of_numbers() -> InstanceSet {
    let mut set = InstanceSet::empty();
    for j in NUMBERS {
        if j < 256 {
            set.insert(j);
        }
    }
    set
}

#[test]
fn goes_over_its_members_in_order(rt: HostRuntime) {
    let set = set_of_numbers();
    let mut from = 0;
    for j in NUMBERS {
        assert!(rt; set.least_from(from) == Some(j));
        assert!(rt; set.contains(j));
        from = j.saturating_add(1);
    }
    assert!(rt; set.least_from(from).is_none());
    assert!(rt; !set.contains(256));
    assert!(rt; set.count() == 8);
}

#[test]
fn takes_members_out_and_compares_sets(rt: HostRuntime) {
    let whole = set_of_numbers();
    let mut rest = whole;
    rest.remove(64);
    rest.remove(255);
    assert!(rt; rest.count() == 6);
    assert!(rt; !rest.contains(64) && rest.contains(63) && !rest.contains(255));
    assert!(rt; rest.is_within(whole) && !whole.is_within(rest));
    let taken = whole.difference(rest);
    assert!(rt; taken.count() == 2);
    assert!(rt; taken.least_from(0) == Some(64) && taken.least_from(65) == Some(255));
    assert!(rt; taken.intersection(rest).is_empty());
    assert!(rt; taken.union(rest) == whole);
}
