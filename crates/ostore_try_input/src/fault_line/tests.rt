//! The lines of faults, of texts whose places were counted by hand.

use crate::fault_line::{print_job_fault, print_try_fault};
use crate::reading::TryFault;
use ostore_job_text::parse_job;
use ostore_schema_layout::SchemaFault;
use std::alloc::Global;
use std::process::Abort;
use std::test::Fail;

/// The text is no job, and this line says why.
fn expect_line(rt: &impl Abort, alloc: Global, text: &[u8], line: &[u8]) -> Result<(), Fail> {
    match parse_job(alloc, text) {
        Ok(_) => assert!(rt; false, "{text:?}"),
        Err(fault) => {
            let printed = print_job_fault(alloc, &fault)?;
            assert_eq!(rt; printed.bytes(), line);
        }
    }
    Ok(())
}

#[test]
fn each_fault_has_its_line(rt: HostRuntime) -> Result<(), Fail> {
    for (text, line) in [
        (b"\xff".as_slice(), b"job fault 1 NotUtf8 at 0\n".as_slice()),
        (
            b"client a\nbegin\n".as_slice(),
            b"job fault 2 Syntax at 15\n".as_slice(),
        ),
        (
            b"client a\nclient a\n".as_slice(),
            b"job fault 3 DuplicateClient at 16\n".as_slice(),
        ),
        (
            b"client a\nclient b\nclient c\nclient d\nclient e\nclient f\nclient g\nclient h\nclient i\nclient j\nclient k\nclient l\nclient m\nclient n\nclient o\nclient p\nclient q\nclient r\n".as_slice(),
            b"job fault 4 TooManyClients at 151\n".as_slice(),
        ),
        (
            b"client a tries 0\n".as_slice(),
            b"job fault 5 BadOption at 9\n".as_slice(),
        ),
        (
            b"turns a\n".as_slice(),
            b"job fault 6 UnknownTurn at 6\n".as_slice(),
        ),
    ] {
        expect_line(&rt, rt.alloc(), text, line)?;
    }
    let long = vec![in rt.alloc(); b'#'; 4_194_305]?;
    expect_line(&rt, rt.alloc(), &long, b"job fault 7 TooLong at 4194304\n")
}

#[test]
fn what_a_text_for_try_is_refused_for(rt: HostRuntime) -> Result<(), Fail> {
    for (fault, line) in [
        (
            TryFault::Schema(SchemaFault::Syntax { at: 5 }),
            b"schema fault 1 Syntax at 5\n".as_slice(),
        ),
        (TryFault::Refused, b"text refused\n".as_slice()),
        (TryFault::OutOfMemory, b"out of memory\n".as_slice()),
    ] {
        let printed = print_try_fault(rt.alloc(), &fault)?;
        assert_eq!(rt; printed.bytes(), line);
    }
    Ok(())
}
