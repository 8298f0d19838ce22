ghost use Rattle.std.specs.Prelude.{◌≡◌};
ghost use Rattle.ostore_redo_journal.specs.Order.{IsInOrder};

use super::*;

/// What a journal lists, where it hasn't stopped.
fn listed<D: Disk>(alloc: Global, journal: &mut Journal<D>) -> Option<Result<Items, HistoryFault>>
    requires in_order { IsInOrder D.content D.may_leave journal.old }
    ensures in_order { IsInOrder D.content D.may_leave journal.new }
{
    if journal.stopped.is_some() {
        return None;
    }
    Some(journal.history(alloc))
}

/// An item of client 0.
fn item(number: u64, ordinal: u32, pages: u16) -> Item {
    Item {
        number,
        client: ClientNo(0),
        ordinal,
        pages,
    }
}

#[test]
fn a_history_lists_one_record_and_then_two(rt: HostRuntime) -> Result<(), Fail> {
    let alloc = rt.alloc();
    let disk = MemDisk::new(database(alloc)?, Vec::new(alloc));
    let Some(mut journal) = opened(alloc, disk) else {
        return Err(Fail::new("the journal was not opened"));
    };
    let mut first = Record::new(alloc, ClientNo(0), 1, 3)?;
    first.add(PageNo(0), &filled(5));
    first.add(PageNo(9), &filled(6));
    first.add(PageNo(10), &filled(7));
    assert_eq!(rt; journal.append(&mut first), Ok(1));
    let Some(Ok(one)) = listed(alloc, &mut journal) else {
        return Err(Fail::new("the record was not listed"));
    };
    assert_eq!(rt; one.items(), [item(1, 1, 3)].as_slice());
    let mut second = Record::new(alloc, ClientNo(0), 2, 1)?;
    second.add(PageNo(10), &filled(8));
    assert_eq!(rt; journal.append(&mut second), Ok(2));
    let Some(Ok(two)) = listed(alloc, &mut journal) else {
        return Err(Fail::new("the records were not listed"));
    };
    assert_eq!(rt; two.items(), [item(1, 1, 3), item(2, 2, 1)].as_slice());
    Ok(())
}

#[test]
fn a_failed_read_is_answered_and_stops_nothing(rt: HostRuntime) -> Result<(), Fail> {
    let alloc = rt.alloc();
    // Six calls open the journal, four append the record, and one lists it.
    let disk = MemDisk::new(database(alloc)?, [11].to_vec(alloc)?);
    let Some(mut journal) = opened(alloc, disk) else {
        return Err(Fail::new("the journal was not opened"));
    };
    let mut empty = Record::new(alloc, ClientNo(0), 4, 0)?;
    assert_eq!(rt; journal.append(&mut empty), Ok(1));
    let Some(Err(fault)) = listed(alloc, &mut journal) else {
        return Err(Fail::new("the fault was not answered"));
    };
    assert_eq!(rt; fault, HistoryFault::DiskFault);
    let Some(Ok(one)) = listed(alloc, &mut journal) else {
        return Err(Fail::new("the record was not listed"));
    };
    assert_eq!(rt; one.items(), [item(1, 4, 0)].as_slice());
    Ok(())
}
