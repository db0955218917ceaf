use adapters::{Islice, consume};
use sources::Range;
use std::test::Fail;
use steps::{Answer, CallError, Refusal, Source};
use tee::Tee;

// The first item of a slice; what is refused becomes a call's error by `?`.
fn first_of_slice(arguments: &[Option<u64>]) -> Result<Answer<u64>, CallError> {
    let mut slice = Islice::new(Range::new(7, 9), arguments)?;
    Ok(slice.next()?)
}

#[test]
fn a_refused_slice_becomes_the_error_of_a_call(rt: HostRuntime) {
    let refused = CallError::Refused(Refusal::SliceArguments);
    assert_eq!(rt; first_of_slice(&[Some(1)]), Ok(Answer::Item(7)));
    assert_eq!(rt; first_of_slice(&[]), Err(refused));
}

#[test]
fn refused_makings_are_told(rt: HostRuntime) -> Result<(), Fail> {
    let alloc = rt.alloc();
    let Err(slice) = Islice::new(Range::new(0, 9), &[None, None, Some(0)]) else {
        return Err(Fail::new("made"));
    };
    let Err(tee) = Tee::new(Range::new(0, 9), Some(17), 4) else {
        return Err(Fail::new("made"));
    };
    assert_eq!(rt;
        format!(in alloc; "{slice}")?.as_str(),
        "refused (5): islice: not one to three arguments, a step of 0, or a number above 2^63 - 1"
    );
    assert_eq!(rt;
        format!(in alloc; "{slice:?}")?.as_str(),
        "refused (5): islice: not one to three arguments, a step of 0, or a number above 2^63 - 1"
    );
    assert_eq!(rt;
        format!(in alloc; "{tee}")?.as_str(),
        "refused (8): no such branch of a tee, or more than 16 branches"
    );
    assert_eq!(rt;
        format!(in alloc; "{tee:?}")?.as_str(),
        "refused (8): no such branch of a tee, or more than 16 branches"
    );
    Ok(())
}

#[test]
fn a_refused_source_comes_back_undrawn(rt: HostRuntime) -> Result<(), Fail> {
    let Err(mut error) = consume(Range::new(0, 9), &[]) else {
        return Err(Fail::new("consumed"));
    };
    assert_eq!(rt; error.source.next(), Ok(Answer::Item(0)));
    Ok(())
}
