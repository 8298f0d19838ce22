//! A schema as large as schemas can be.

use crate::cells::layout;
use crate::pointers::code_size;
use crate::print::print_schema;
use crate::reading::parse_schema;
use crate::schema::{MemberNo, TypeNo};
use crate::tests::samples::numbered;
use ostore_base::Copied;
use std::alloc::{AllocError, Global};
use std::test::Fail;

/// A text of 31,296 bytes: 64 types, T10 to T73, each with 32 ints, member_m10 to member_m41.
fn largest(alloc: Global) -> Result<Vec<u8>, AllocError> {
    let mut text = Vec::new(alloc);
    for n in 0..64 {
        let head = [
            b't',
            b'y',
            b'p',
            b'e',
            b' ',
            b'T',
            b'1' + n / 10,
            b'0' + n % 10,
            b'\n',
        ];
        text.extend_from_slice(&numbered(alloc, &head, 32, b"member_m", b" int\n")?)?;
    }
    Ok(text)
}

#[test]
fn the_largest_schema_is_read_and_printed(rt: HostRuntime) -> Result<(), Fail> {
    let alloc = rt.alloc();
    let text = largest(alloc)?;
    assert_eq!(rt; text.len(), 31_296);
    let schema = parse_schema(alloc, &text)?;
    assert_eq!(rt; schema.types.items().len(), 64);
    let printed = print_schema(alloc, &schema)?;
    assert!(rt; printed.bytes() == text.as_slice());
    let again = parse_schema(alloc, printed.bytes())?.copy()?;
    assert!(rt; print_schema(alloc, &again)?.bytes() == text.as_slice());
    Ok(())
}

#[test]
fn the_last_of_64_types_is_found_and_laid_out(rt: HostRuntime) -> Result<(), Fail> {
    let alloc = rt.alloc();
    let schema = parse_schema(alloc, &largest(alloc)?)?;
    assert_eq!(rt; schema.types.items().len(), 64);
    assert_eq!(rt; schema.type_named(b"T73"), Some(TypeNo(64)));
    assert_eq!(rt; schema.type_named(b"T74"), None);
    assert_eq!(rt;
        schema.member_named(TypeNo(64), b"member_m41"),
        Some(MemberNo(31))
    );
    assert_eq!(rt; schema.member_named(TypeNo(64), b"member_m42"), None);
    assert_eq!(rt; schema.member_named(TypeNo(0), b"member_m10"), None);
    assert_eq!(rt; schema.members_of(TypeNo(0)).len(), 0);
    assert_eq!(rt; schema.members_of(TypeNo(65)).len(), 0);
    assert_eq!(rt; code_size(&schema, 64), 256);
    let cell = layout(alloc, &schema, TypeNo(64))?;
    assert_eq!(rt; cell.size, 256);
    assert_eq!(rt; cell.members.items().len(), 32);
    for (place, offset) in cell.members.items().iter().zip((0..256).step_by(8)) {
        assert_eq!(rt; place.offset, offset);
    }
    Ok(())
}
