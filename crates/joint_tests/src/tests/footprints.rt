use super::*;
use groups::{GroupWant, Mode, footprint};
use requests::Group;

#[test]
fn a_payment_claims_what_it_changes(rt: HostRuntime) -> Result<(), Fail> {
    let group_wants = footprint(rt.alloc(), &payment(100))?;
    let mode = Mode::Exclusive;
    let claimed = [
        Group::Warehouse { w_id: 1 },
        Group::District { w_id: 1, d_id: 1 },
        Group::Customers { w_id: 1, d_id: 1 },
        Group::History { w_id: 1, d_id: 1 },
    ];
    let claimed = claimed.map(|group| GroupWant { group, mode });
    assert_eq!(rt; group_wants.as_slice(), claimed.as_slice());
    Ok(())
}
