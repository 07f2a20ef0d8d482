use super::*;
use commit_log::Entry;
use csv::ByteRecord;
use requests::{Answer, Fault, Refusal, Reply};
use terminals::{answer_record, log_record};

// A payment that is refused, and one that is rolled back, of examples in docs/FORMATS.md.
#[test]
fn records_of_answers(rt: HostRuntime) -> Result<(), Fail> {
    let alloc = rt.alloc();
    let refused = answer_record(alloc, 0, 4, &Answer::Refused(Refusal::BadWarehouse))?;
    let fields = ["0", "4", "refused", "1"].map(|field| field.as_bytes());
    assert_eq!(rt; refused, ByteRecord::from_fields(alloc, &fields)?);
    let reply = Reply::RolledBack(Fault::NoCustomer);
    let done = answer_record(alloc, 0, 1, &Answer::Done { place: 2, reply })?;
    let fields = ["0", "1", "done", "2", "X", "nocustomer"].map(|field| field.as_bytes());
    assert_eq!(rt; done, ByteRecord::from_fields(alloc, &fields)?);
    Ok(())
}

// The second entry of the log in docs/FORMATS.md.
#[test]
fn a_record_of_a_log(rt: HostRuntime) -> Result<(), Fail> {
    let alloc = rt.alloc();
    let request = Request::Payment(Payment {
        home: DistrictKey { w_id: 1, d_id: 2 },
        customer_home: DistrictKey { w_id: 1, d_id: 1 },
        customer: Choice::Number(6),
        amount: 100,
        moment: Moment::new(1_714_564_800),
    });
    let entry = Entry {
        session: 0,
        number: 1,
        request,
        reply: Reply::RolledBack(Fault::NoCustomer),
    };
    let fields = [
        "1",
        "0",
        "1",
        "8",
        "P",
        "1",
        "2",
        "1",
        "1",
        "#6",
        "100",
        "2024-05-01T12:00:00",
        "X",
        "nocustomer",
    ];
    let fields = fields.map(|field| field.as_bytes());
    let record = log_record(alloc, 1, &entry)?;
    assert_eq!(rt; record, ByteRecord::from_fields(alloc, &fields)?);
    Ok(())
}
