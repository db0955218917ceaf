use sources::{Cause, RecordFault};
use std::test::Fail;
use steps::{CallError, Fault, Refusal};

fn fault(origin: u8, cause: u16, place: u64) -> Fault {
    Fault {
        origin,
        cause,
        place,
    }
}

#[test]
fn faults_are_told(rt: HostRuntime) -> Result<(), Fail> {
    let alloc = rt.alloc();
    let (source, first) = (fault(Fault::SOURCE, 5, 24), fault(Fault::SOURCE, 1, 0));
    let (predicate, key) = (fault(Fault::PREDICATE, 7, 0), fault(Fault::KEY, 8, 3));
    let (joining, other) = (fault(Fault::JOINING, 1, 0), fault(255, 65_535, u64::MAX));
    assert_eq!(rt;
        format!(in alloc; "{source}")?.as_str(),
        "fault of a source, cause 5, at byte 24"
    );
    assert_eq!(rt;
        format!(in alloc; "{first}")?.as_str(),
        "fault of a source, cause 1, at byte 0"
    );
    assert_eq!(rt;
        format!(in alloc; "{predicate}")?.as_str(),
        "fault of a predicate, cause 7"
    );
    assert_eq!(rt;
        format!(in alloc; "{key}")?.as_str(),
        "fault of a key kind, cause 8, at byte 3"
    );
    assert_eq!(rt;
        format!(in alloc; "{joining}")?.as_str(),
        "fault of a joining, cause 1"
    );
    assert_eq!(rt;
        format!(in alloc; "{other}")?.as_str(),
        "fault of origin 255, cause 65535, at byte 18446744073709551615"
    );
    Ok(())
}

#[test]
fn refusals_are_told(rt: HostRuntime) -> Result<(), Fail> {
    let alloc = rt.alloc();
    let (pool, store) = (Refusal::PoolTooLong, Refusal::OtherStore);
    assert_eq!(rt;
        format!(in alloc; "{pool}")?.as_str(),
        "refused (1): a pool above 256 elements"
    );
    assert_eq!(rt;
        format!(in alloc; "{store}")?.as_str(),
        "refused (9): a tee's store not as long as at the making"
    );
    Ok(())
}

#[test]
fn calls_without_an_answer_are_told(rt: HostRuntime) -> Result<(), Fail> {
    let alloc = rt.alloc();
    let refused = CallError::Refused(Refusal::StoreFull);
    let broken = CallError::Broken(fault(Fault::SOURCE, 2, 12));
    assert_eq!(rt;
        format!(in alloc; "{refused}")?.as_str(),
        "refused (6): a tee's step needs a draw and its store is full"
    );
    assert_eq!(rt;
        format!(in alloc; "{broken}")?.as_str(),
        "fault of a source, cause 2, at byte 12"
    );
    Ok(())
}

#[test]
fn faulty_records_are_told(rt: HostRuntime) -> Result<(), Fail> {
    let alloc = rt.alloc();
    let cut = Cause::CutPayload;
    let record = RecordFault(fault(Fault::SOURCE, 5, 24));
    let unknown = RecordFault(fault(Fault::SOURCE, 6, 0));
    let no_record = RecordFault(fault(Fault::KEY, 7, 0));
    assert_eq!(rt; format!(in alloc; "{cut}")?.as_str(), "payload cut short");
    assert_eq!(rt; Cause::words_of(2), "payload cut short");
    assert_eq!(rt;
        format!(in alloc; "{record}")?.as_str(),
        "record at byte 24, cause 5: end not after start, or after midnight"
    );
    assert_eq!(rt;
        format!(in alloc; "{unknown}")?.as_str(),
        "record at byte 0, cause 6: unknown"
    );
    assert_eq!(rt;
        format!(in alloc; "{no_record}")?.as_str(),
        "fault of a key kind, cause 7"
    );
    Ok(())
}
