use super::*;
use history::{Event, EventAnswer, Output, Scheduled};
use picture::write_picture;
use requests::Refusal;

// A payment that is refused with NoMemory after it was accepted: the answer does not record which of its actions hold claims.
#[test]
fn after_a_refusal_the_agreed_phase_is_not_known(rt: HostRuntime) -> Result<(), Fail> {
    let alloc = rt.alloc();
    let executor = 0;
    let submit = Event::Submit {
        session: 1,
        number: 0,
        request: payment(100),
    };
    let refused = EventAnswer::Answered {
        session: 1,
        number: 0,
        answer: Err(Refusal::NoMemory),
    };
    let mut schedule = Vec::new(alloc);
    let mut outputs = Vec::new(alloc);
    for (event, answer) in [
        (submit, EventAnswer::Accepted { age: 0 }),
        (Event::Take { executor }, EventAnswer::Took),
        (Event::Send { executor }, refused),
    ] {
        schedule.push(Scheduled::Event(event))?;
        outputs.push(Output::Event(answer))?;
    }
    let scale = warehouses(alloc, 1)?.scale();
    let mut text = Vec::new(alloc);
    write_picture(alloc, &mut text, &schedule, &outputs, &[], &scale, 1)?;
    let words = b">not known from here on</text>".as_slice();
    assert!(rt; text.windows(30).any(|part| part == words));
    Ok(())
}
