//! Texts of jobs, read and printed again, against bytes that were written by hand from the grammar.

use crate::print::print_job;
use ostore_job_text::{JobFault, parse_job};
use std::alloc::Global;
use std::test::Fail;

/// The canonical text of the job that a text is.
fn again(alloc: Global, text: &[u8]) -> Result<Vec<u8>, JobFault> {
    let job = parse_job(alloc, text)?;
    let printed = print_job(alloc, &job)?;
    Ok(printed.into_vec())
}

const ALL_COMMANDS: &[u8] = b"client a
begin
new $p Part 1
find $p 255.4294967295
root $p top
setroot top $p
setroot top null
get $p.id
set $p.id -9223372036854775808
set $p.name \"say \\\"a\\\\b\\\"  #\"
set $p.name \"\"
set $p.next $q
set $p.next null
follow $q $p.next
delete $p
insert $p.parts $q
remove $p.parts $q
members $p.parts
size $p.parts
append $p.steps $q
put $p.steps 4294967295 $q
at $q $p.steps 0
bind $p.by \"k\" $q
look $q $p.by -7
unbind $p.by 0
index $p.parts code
unindex $p.parts home.code
query $p.parts home.shelf.code = \"x\"
query $p.parts code < 1
query $p.parts code <= 1
query $p.parts code > 1
query $p.parts code >= 1
commit
";

#[test]
fn every_command_is_read_and_printed_again(rt: HostRuntime) -> Result<(), Fail> {
    assert_eq!(rt; again(rt.alloc(), ALL_COMMANDS)?.as_slice(), ALL_COMMANDS);
    Ok(())
}

#[test]
fn canonical_texts(rt: HostRuntime) -> Result<(), Fail> {
    for (text, canonical) in [
        (b"".as_slice(), b"".as_slice()),
        (b"# none\n\n  \n".as_slice(), b"".as_slice()),
        (
            b"client a tries 3 frames 7 cache 2".as_slice(),
            b"client a tries 3 cache 2 frames 7\n".as_slice(),
        ),
        (
            b"client a frames 65536 cache 256 tries 16\n".as_slice(),
            b"client a\n".as_slice(),
        ),
        (
            b"client a\nturns a*1 a*2\n".as_slice(),
            b"client a\nturns a a*2\n".as_slice(),
        ),
        (
            b"client a\nclient b\nturns b\n# more\nturns a*1000000 b\n".as_slice(),
            b"client a\nclient b\nturns b a*1000000 b\n".as_slice(),
        ),
    ] {
        assert_eq!(rt; again(rt.alloc(), text)?.as_slice(), canonical);
    }
    Ok(())
}

const FOUR: &[u8] = b"client a tries 3 cache 2 frames 7
begin
new $p Part 1
abort
read
get $p.id
commit
client b cache 16384
begin
commit
read
abort
client c
client d tries 1000
turns a b*2 c*1000000 d a
";

#[test]
fn a_job_of_four_clients_is_read_and_printed_again(rt: HostRuntime) -> Result<(), Fail> {
    assert_eq!(rt; again(rt.alloc(), FOUR)?.as_slice(), FOUR);
    Ok(())
}
