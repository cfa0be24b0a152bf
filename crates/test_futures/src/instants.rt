use mono_time::*;
use std::io;

#[test]
fn texts(rt: HostRuntime) {
    let errors = [
        (
            Error::shutdown(),
            "the timer is shutdown, must be called from the context of Monoio runtime",
        ),
        (
            Error::at_capacity(),
            "timer is at capacity and cannot create a new entry",
        ),
        (Error::invalid(), "timer duration exceeds maximum duration"),
    ];
    for (error, text) in errors {
        let told = error.to_string(rt.alloc()).expect(&rt, "memory");
        assert!(rt; told.as_str() == text);
    }
}

fn is_timed_out(error: io::Error) -> bool {
    error.kind() == io::ErrorKind::TimedOut
}

#[test]
fn elapsed(rt: HostRuntime) {
    let told = Elapsed.to_string(rt.alloc()).expect(&rt, "memory");
    assert!(rt; told.as_str() == "deadline has elapsed" && is_timed_out(io::Error::from(Elapsed)));
}
