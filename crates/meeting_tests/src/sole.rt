//! A meeting of which one owner has all places.
ghost use Rattle.std.specs.Prelude.{◌≡◌, ◌≤◌, ◌+◌, [], ◌∷◌};

use rendezvous::{SoleConvener, SoleReported, SoleResults};
use std::test::*;

// A round of three places, which report out of order.
fn three_report(convener: SoleConvener<u64, 3>, first: u64) -> SoleResults<u64, 3>
    requires { first ≤ 1000 }
    ensures { result ≡ first ∷ (first + 1) ∷ (first + 2) ∷ [] }
{
    let mut meeting = convener.convene(3);
    let SoleReported::NotLast = meeting.report(1, first + 1) else {
        unreachable!()
    };
    let SoleReported::NotLast = meeting.report(2, first + 2) else {
        unreachable!()
    };
    let SoleReported::Last(results) = meeting.report(0, first) else {
        unreachable!()
    };
    results
}

#[test]
fn the_last_report_of_each_round_gets_all_results(rt: HostRuntime) -> Result<(), Fail> {
    let mut convener = SoleConvener::<u64, 3>::open(rt.alloc())?;
    for round in 0..3 {
        let mut results = three_report(convener, 10 * round);
        assert_eq!(rt; results.len(), 3);
        assert_eq!(rt; results.next(), Some(10 * round));
        assert_eq!(rt; results.next(), Some(10 * round + 1));
        assert_eq!(rt; results.next(), Some(10 * round + 2));
        assert_eq!(rt; results.next(), None);
        convener = results.finish();
    }
    Ok(())
}
