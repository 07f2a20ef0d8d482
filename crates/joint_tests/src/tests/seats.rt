use super::*;
use agreement::{Change, Seat, Value};
use std::thread;

// A number to agree on.
struct Number {
    value: u64,
}

impl Value for Number {
    ghost initial = { record { value = 0 } };
}

impl Change<Number> for u64 {
    ghost changed = { λ number before. record { value = number } };
}

#[test]
fn a_seat_goes_to_another_thread_and_back(rt: HostRuntime) -> Result<(), Fail> {
    let mut seat: Seat<Number> = Seat::open(rt.alloc(), 1)?;
    seat.change(&7_u64);
    let child = thread::spawn(&rt, move || seat)?;
    let mut seat = child.join(&rt);
    let _ = seat.another()?;
    Ok(())
}
