use crate::*;

// A row that stands in no table.
#[test]
fn a_row_made_at_run_time(rt: HostRuntime) {
    let mut slots = [Slot::Needed; 3];
    slots[1] = Slot::Optional;
    slots[2] = Slot::OptionalResult;
    let row = Slots {
        more: false,
        slots: &slots,
    };
    assert!(rt; row.admits(3) && !row.admits(2) && !row.admits(4));
    assert!(rt; row.front(3) == 0 && row.front(2) == 0 && row.front(5) == 2);
    assert!(rt; row.slot(1) == Some(Slot::Optional) && row.slot(2) == Some(Slot::OptionalResult));
    assert!(rt; row.slot(3).is_none() && row.slot(255).is_none());
    let long = Slots { more: true, ..row };
    assert!(rt; long.admits(3) && !long.admits(2) && long.admits(9));
    assert!(rt; long.front(9) == 6 && long.slot(0) == Some(Slot::Needed));
}
