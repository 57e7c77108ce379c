//! The limits of a plan, each at its edge.
use crate::answers::refused;
use faults::{Fault, Refusal};
use words::Plan;

/// How many cards a plan has, or its refusal.
fn cards(q: u32, n: u32, k: u32, d: u32, e: u32) -> Result<u32, Fault> {
    Ok(Plan::new(q, n, k, d, e)?.cards())
}

#[test]
fn plans_within_their_limits_exist(rt: HostRuntime) {
    assert_eq!(rt; cards(5, 5, 2, 2, 1), Ok(25));
    assert_eq!(rt; cards(16, 16, 4, 1, 6), Ok(65536));
    assert_eq!(rt; cards(2, 2, 1, 32, 0), Ok(2));
    assert_eq!(rt; cards(64, 64, 2, 32, 15), Ok(4096));
    assert_eq!(rt; cards(64, 1, 1, 1, 0), Ok(64));
}

#[test]
fn each_limit_is_refused_in_its_order(rt: HostRuntime) {
    assert_eq!(rt; cards(1, 0, 0, 0, 0), refused(Refusal::Field, 1));
    assert_eq!(rt; cards(65, 0, 0, 0, 0), refused(Refusal::Field, 65));
    assert_eq!(rt; cards(5, 0, 0, 0, 0), refused(Refusal::Range, 0));
    assert_eq!(rt; cards(5, 6, 0, 0, 0), refused(Refusal::Range, 6));
    assert_eq!(rt; cards(5, 5, 0, 33, 0), refused(Refusal::Range, 0));
    assert_eq!(rt; cards(5, 5, 2, 0, 0), refused(Refusal::Range, 0));
    assert_eq!(rt; cards(5, 5, 99, 33, 0), refused(Refusal::Range, 33));
    assert_eq!(rt; cards(16, 16, 5, 1, 99), refused(Refusal::Words, 5));
    assert_eq!(rt; cards(16, 16, 4, 1, 7), refused(Refusal::Distance, 17));
    assert_eq!(rt; cards(5, 5, 2, 3, 1), refused(Refusal::Distance, 5));
}

#[test]
fn nothing_wraps_at_the_largest_numbers(rt: HostRuntime) {
    let most = u32::MAX;
    assert_eq!(rt;
        cards(most, most, most, most, most),
        refused(Refusal::Field, 4294967295)
    );
    assert_eq!(rt;
        cards(2, most, most, most, most),
        refused(Refusal::Range, 4294967295)
    );
    assert_eq!(rt;
        cards(2, 2, most, 32, most),
        refused(Refusal::Words, 4294967295)
    );
    assert_eq!(rt;
        cards(2, 2, 16, 32, most),
        refused(Refusal::Distance, 8589935070)
    );
    assert_eq!(rt;
        cards(64, 64, 1, 32, most),
        refused(Refusal::Distance, 8589934590)
    );
}
