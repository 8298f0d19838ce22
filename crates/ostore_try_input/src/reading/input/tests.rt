//! Texts that are read, and texts that are refused.

use super::*;
use ostore_graph_model::{Command, Operand};
use std::fmt::Write;
use std::test::Fail;

const WHOLE: &[u8] =
    b"type Part\nid int\njob\nclient a\nbegin\nnew $p Part 1\nset $p.id 7\nget $p.id\ncommit\n";

/// How many types, members, clients, transactions and commands a text has.
fn sizes(alloc: Global, text: &[u8]) -> Result<[usize; 5], TryFault> {
    let input = read_try_input(alloc, text)?;
    let mut sizes = [input.schema.types.items().len(), 0, 0, 0, 0];
    if let [ty] = input.schema.types.items() {
        sizes[1] = ty.members.items().len();
    }
    sizes[2] = input.job.clients.items().len();
    if let [client] = input.job.clients.items() {
        sizes[3] = client.txns.items().len();
        if let [txn, ..] = client.txns.items() {
            sizes[4] = txn.commands.items().len();
        }
    }
    Ok(sizes)
}

#[test]
fn whole_text(rt: HostRuntime) -> Result<(), Fail> {
    assert_eq!(rt; sizes(rt.alloc(), WHOLE)?, [1, 1, 1, 1, 3]);
    let input = read_try_input(rt.alloc(), WHOLE)?;
    for client in input.job.clients.items() {
        assert_eq!(rt; client.name.bytes(), b"a".as_slice());
        assert_eq!(rt;
            [client.tries, client.cache, client.frames],
            [16, 256, 65536]
        );
        for txn in client.txns.items() {
            assert!(rt; txn.update);
            for command in txn.commands.items() {
                assert!(rt; is_expected(command));
            }
        }
    }
    Ok(())
}

/// Whether the command is one of the whole text's.
fn is_expected(command: &Command) -> bool {
    match command {
        Command::New { to, ty, segment } => {
            to.bytes() == b"p".as_slice() && ty.bytes() == b"Part".as_slice() && *segment == 1
        }
        Command::Set {
            object,
            member,
            value: Operand::Int(value),
        } => object.bytes() == b"p".as_slice() && member.bytes() == b"id".as_slice() && *value == 7,
        Command::Get { object, member } => {
            object.bytes() == b"p".as_slice() && member.bytes() == b"id".as_slice()
        }
        _ => false,
    }
}

#[test]
fn short_texts(rt: HostRuntime) -> Result<(), Fail> {
    for (text, wanted) in [
        (b"".as_slice(), [0, 0, 0, 0, 0]),
        (b"job\n".as_slice(), [0, 0, 0, 0, 0]),
        (b"type A\ntype B\nb int\n".as_slice(), [2, 0, 0, 0, 0]),
        (b"type Part\n".as_slice(), [1, 0, 0, 0, 0]),
        (b"type Part\njob".as_slice(), [1, 0, 0, 0, 0]),
        (
            b"# parts\n\ntype Part\n  id  int\n\n#job\njob\nclient a\n#begin\nbegin\ncommit\nbegin\ncommit\n".as_slice(),
            [1, 1, 1, 2, 0],
        ),
    ] {
        assert_eq!(rt; sizes(rt.alloc(), text)?, wanted);
    }
    Ok(())
}

#[test]
fn texts_that_are_not_built(rt: HostRuntime) {
    for text in [
        b"type A\nb ref A\n".as_slice(),
        b"type A\ntype B\nb text 3\n".as_slice(),
        b"type A\njob\nclient a\nbegin\nfind $p 1.1\ncommit\n".as_slice(),
        b"type A\njob\nclient a\nclient b\nread\nset $p.n null\nabort\n".as_slice(),
    ] {
        assert!(rt;
            matches!(read_try_input(rt.alloc(), text), Err(TryFault::Refused)),
            "{text:?}"
        );
    }
}

fn has_fault(alloc: Global, text: &[u8], fault: JobFault) -> bool {
    matches!(read_try_input(alloc, text), Err(TryFault::Job(found)) if found == fault)
}

#[test]
fn jobs_at_fault(rt: HostRuntime) {
    for (text, fault) in [
        // places count from the start of the whole text
        (
            b"type Part\nid int\njob\nclient a\nbegin\nnew $p Part 1\nset $p.id 9223372036854775808\nget $p.id\ncommit\n".as_slice(),
            JobFault::Syntax { at: 60 },
        ),
        (
            b"type A\njob\nbegin\ncommit\n".as_slice(),
            JobFault::Syntax { at: 11 },
        ),
        (
            b"type A\njob\njob\n".as_slice(),
            JobFault::Syntax { at: 11 },
        ),
        (
            b"type A\njob\nclient a\nbegin\n".as_slice(),
            JobFault::Syntax { at: 26 },
        ),
        (
            b"type A\njob\n# \x01\n".as_slice(),
            JobFault::Syntax { at: 13 },
        ),
        (
            b"type A\njob\n# \xff\n".as_slice(),
            JobFault::NotUtf8 { at: 13 },
        ),
        (
            b"type A\njob\nclient a\nturns a b\n".as_slice(),
            JobFault::UnknownTurn { at: 28 },
        ),
    ] {
        assert!(rt; has_fault(rt.alloc(), text, fault), "{text:?}");
    }
}

#[test]
fn the_fault_that_comes_first(rt: HostRuntime) {
    for (text, fault) in [
        // before a schema that isn't built
        (
            b"type A\nb ref A\njob\nclient a\nclient a\n".as_slice(),
            JobFault::DuplicateClient { at: 35 },
        ),
        // a bad byte before a word that can't stand, and that before a name
        (
            b"job\nclient a\nclient a mail\n# \xff\n".as_slice(),
            JobFault::NotUtf8 { at: 29 },
        ),
        (
            b"job\nclient a\nclient a mail\n".as_slice(),
            JobFault::Syntax { at: 26 },
        ),
    ] {
        assert!(rt; has_fault(rt.alloc(), text, fault), "{text:?}");
    }
}

#[test]
fn a_text_cut_anywhere_has_its_fault_within(rt: HostRuntime) {
    let text =
        b"# parts\ntype Part\nid int\njob\nclient a tries 3 cache 2\nbegin\nnew $p Part 1\nset $p.name \"a \\\"b\"\nabort\nread\ncommit\nclient b\nturns a*2 b\n".as_slice();
    for length in 0..text.len() {
        let (number, place) = match read_try_input(rt.alloc(), &text[..length]) {
            Err(TryFault::Schema(fault)) => (fault.number(), fault.place()),
            Err(TryFault::Job(fault)) => (fault.number(), fault.place()),
            Err(TryFault::OutOfMemory) => (0, 0),
            Err(TryFault::Refused) | Ok(_) => (1, 0),
        };
        assert!(rt; number != 0 && place <= length, "{length}");
    }
}

#[test]
fn schemas_at_fault(rt: HostRuntime) {
    for (text, fault) in [
        (b"id int\n".as_slice(), SchemaFault::Syntax { at: 0 }),
        (b"type job\njob\n".as_slice(), SchemaFault::Syntax { at: 5 }),
        (
            b"type A\nid int\nid int\njob\nclient\n".as_slice(),
            SchemaFault::DuplicateMember { at: 14 },
        ),
        (
            b"type A\nx ref B\n  job  \n\xff".as_slice(),
            SchemaFault::UnknownType { at: 13 },
        ),
        (
            b"type A\n# \xff\njob\n".as_slice(),
            SchemaFault::NotUtf8 { at: 9 },
        ),
    ] {
        assert!(rt;
            matches!(read_try_input(rt.alloc(), text), Err(TryFault::Schema(found)) if found == fault),
            "{text:?}"
        );
    }
}

#[test]
fn the_part_of_the_schema(rt: HostRuntime) {
    for (text, part) in [
        (b"".as_slice(), b"".as_slice()),
        (b"type A\n".as_slice(), b"type A\n".as_slice()),
        (
            b"type A\n job \nclient a\njob\n".as_slice(),
            b"type A\n".as_slice(),
        ),
        (
            b"type A\n#job\njob".as_slice(),
            b"type A\n#job\n".as_slice(),
        ),
    ] {
        assert!(rt; schema_part_of(text) == part, "{text:?}");
    }
}

/// The text of a type with so many members.
fn text_of_members(alloc: Global, count: u8) -> Result<String, Fail> {
    let mut text = String::from_str(alloc, "type A\n")?;
    for i in 0..count {
        writeln!(text, "m{i} int")?;
    }
    Ok(text)
}

#[test]
fn many_transactions_and_variables(rt: HostRuntime) -> Result<(), Fail> {
    let mut text = String::from_str(rt.alloc(), "type Part\nid int\njob\nclient a\nbegin\n")?;
    for i in 0..1000u32 {
        writeln!(text, "new $v{i} Part 1")?;
    }
    text.push_str("commit\n")?;
    for i in 0..1999u32 {
        writeln!(text, "begin\nget $v{i}.id\ncommit")?;
    }
    assert_eq!(rt; sizes(rt.alloc(), text.as_bytes())?, [1, 1, 1, 2000, 1000]);
    Ok(())
}

#[test]
fn texts_to_the_limit(rt: HostRuntime) -> Result<(), Fail> {
    // A schema has at most 32,764 bytes, so the comment stands in the job.
    let mut text = Vec::new(rt.alloc());
    text.extend_from_slice(WHOLE)?;
    let comment = vec![in rt.alloc(); b'#'; 4_194_304 - WHOLE.len()]?;
    text.extend_from_slice(&comment)?;
    assert_eq!(rt; sizes(rt.alloc(), &text)?, [1, 1, 1, 1, 3]);
    text.push(b'#')?;
    // nothing else of such a text is judged
    text[0] = 255;
    let fault = JobFault::TooLong { at: 4_194_304 };
    assert!(rt;
        matches!(read_try_input(rt.alloc(), &text), Err(TryFault::Job(found)) if found == fault)
    );
    Ok(())
}

#[test]
fn members_to_the_limit(rt: HostRuntime) -> Result<(), Fail> {
    let most = text_of_members(rt.alloc(), 32)?;
    assert_eq!(rt; sizes(rt.alloc(), most.as_bytes())?, [1, 32, 0, 0, 0]);
    let too_many = text_of_members(rt.alloc(), 33)?;
    assert!(rt;
        matches!(
            read_try_input(rt.alloc(), too_many.as_bytes()),
            Err(TryFault::Schema(SchemaFault::TooManyMembers { .. }))
        )
    );
    Ok(())
}
