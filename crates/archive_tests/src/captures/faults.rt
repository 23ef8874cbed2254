//! The faults of captures.
use capture_core::CaptureFault;
use warc_core::{Cause, Fault};

#[test]
fn faults_of_captures_have_an_offset_and_a_name(rt: HostRuntime) {
    let damage = CaptureFault::from(Fault {
        offset: 448,
        cause: Cause::ShortBlock,
    });
    for (fault, offset, name) in &[
        (damage, 448, "ShortBlock"),
        (CaptureFault::LineTooLong(7), 7, "LineTooLong"),
        (CaptureFault::KeyTooLong(9), 9, "KeyTooLong"),
    ] {
        assert!(rt; fault.offset() == *offset);
        assert!(rt; fault.name() == *name);
    }
}
