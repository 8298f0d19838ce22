use super::*;
use std::alloc::Global;
use std::io;
use std::io::{ErrorKind, Read, Write};
use std::test::Fail;

/// A reader and writer whose calls fail.
#[derive(Drop)]
struct Broken;

impl Read for Broken {
    fn read(&mut self, _into: &mut [u8]) -> io::Result<usize> {
        Err(io::Error::from(ErrorKind::Other))
    }
}

impl Write for Broken {
    fn write(&mut self, _bytes: &[u8]) -> io::Result<usize> {
        Err(io::Error::from(ErrorKind::Other))
    }

    fn flush(&mut self) -> io::Result<()> {
        Ok(())
    }
}

/// An image whose bytes are all the same.
fn filled(byte: u8) -> PageImage {
    PageImage {
        bytes: [byte; PAGE_SIZE],
    }
}

/// A read, through the trait.
fn read_four<S: Source>(source: &mut S, into: &mut [u8; 4]) -> Result<usize, Failed> {
    source.read(into)
}

/// A write, through the trait.
fn write_piece<K: Sink>(sink: &mut K, piece: &[u8]) -> Result<usize, Failed> {
    sink.write(piece)
}

#[test]
fn pages_are_pushed_set_and_copied(rt: HostRuntime) -> Result<(), Fail> {
    let mut pages = PageList::new(rt.alloc());
    assert!(rt; pages.is_empty());
    pages.push(&PageImage::zeroed())?;
    pages.push(&filled(1))?;
    let before = pages.copy()?;
    pages.set(PageNo(0), &filled(2));
    assert_eq!(rt; pages.len(), 2);
    assert_eq!(rt; pages.page(PageNo(0)).bytes[4095], 2);
    assert_eq!(rt; pages.page(PageNo(1)).bytes[0], 1);
    assert_eq!(rt; before.len(), 2);
    assert!(rt; *before.page(PageNo(0)) == PageImage::zeroed());
    Ok(())
}

#[test]
fn a_database_can_have_all_its_pages(rt: HostRuntime) -> Result<(), Fail> {
    let mut pages = PageList::new(rt.alloc());
    for number in 0..16384u32 {
        assert_eq!(rt; pages.len(), number);
        if !pages.is_full() {
            pages.push(&filled((number % 251) as u8))?;
        }
    }
    assert!(rt; pages.is_full());
    let copy = pages.copy()?;
    assert_eq!(rt; copy.len(), 16384);
    for number in [0, 1, 250, 251, 16383] {
        if number < copy.len() {
            assert_eq!(rt; copy.page(PageNo(number)).bytes[7], (number % 251) as u8);
        }
    }
    Ok(())
}

/// So many texts `number D`, where D is the last digit of the text's place.
fn numerals(alloc: Global, count: u32) -> Result<ListOf<Text>, OutOfMemory> {
    let mut texts = ListOf::new(alloc);
    for number in 0..count {
        let mut text = Text::new(alloc);
        text.push_bytes(b"number ")?;
        text.push(b'0' + (number % 10) as u8)?;
        texts.push(text)?;
    }
    Ok(texts)
}

#[test]
fn lists_grow_and_are_copied(rt: HostRuntime) -> Result<(), Fail> {
    let alloc = rt.alloc();
    let mut texts = numerals(alloc, 3000)?;
    texts.append(numerals(alloc, 2005)?)?;
    let copy = texts.copy()?;
    assert_eq!(rt; copy.len(), 5005);
    assert!(rt; copy.get(5005).is_none());
    for (place, text) in copy.items().iter().enumerate() {
        // Both lists begin at 0, and 3,000 ends in 0.
        assert!(rt; text.bytes().last() == Some(&(b'0' + (place % 10) as u8)));
        assert_eq!(rt; text.len(), 8);
    }
    if let Some(last) = copy.last() {
        assert_eq!(rt; last.bytes(), b"number 4".as_slice());
    }
    let mut lists = ListOf::new(alloc);
    let mut places = ListOf::new(alloc);
    for page in 0..4000u32 {
        places.extend(&[PageNo(page), PageNo(page + 1)])?;
    }
    if places.len() == 8000 {
        places.set(7999, PageNo(9));
    }
    lists.push(places)?;
    for pages in lists.copy()?.items() {
        assert_eq!(rt; pages.len(), 8000);
        assert!(rt; pages.get(7998) == Some(&PageNo(3999)));
        assert!(rt; pages.last() == Some(&PageNo(9)));
    }
    Ok(())
}

#[test]
fn memory_holds_much(rt: HostRuntime) -> Result<(), Fail> {
    let alloc = rt.alloc();
    let mut text = Text::new(alloc);
    let mut sink = MemSink::new(alloc, Vec::new(alloc));
    let mut disk = MemDisk::new(Vec::new(alloc), Vec::new(alloc));
    for piece in 0..3000u64 {
        text.push_bytes(b"a piece of text\n")?;
        assert_eq!(rt; write_piece(&mut sink, b"a piece of text\n"), Ok(16));
        if disk.bytes().len() as u64 == 16 * piece {
            assert_eq!(rt; disk.write(16 * piece, b"a piece of text\n"), Ok(()));
        }
    }
    assert_eq!(rt; text.len(), 48000);
    assert_eq!(rt; sink.bytes(), text.copy()?.bytes());
    assert_eq!(rt; disk.bytes(), text.bytes());
    Ok(())
}

#[test]
fn a_source_fails_at_the_named_call(rt: HostRuntime) -> Result<(), Fail> {
    let alloc = rt.alloc();
    let mut source = MemSource::new([1, 2, 3, 4, 5].to_vec(alloc)?, [2].to_vec(alloc)?);
    let mut into = [0; 4];
    for want in [Ok(4), Err(Failed), Ok(1), Ok(0)] {
        assert_eq!(rt; read_four(&mut source, &mut into), want);
    }
    assert_eq!(rt; into, [5, 2, 3, 4]);
    assert_eq!(rt; source.calls(), 4);
    assert_eq!(rt; source.faults(), 1);
    Ok(())
}

#[test]
fn a_sink_fails_at_the_named_calls(rt: HostRuntime) -> Result<(), Fail> {
    let alloc = rt.alloc();
    let mut sink = MemSink::new(alloc, [1, 3].to_vec(alloc)?);
    for want in [Err(Failed), Ok(2), Err(Failed), Ok(2)] {
        assert_eq!(rt; write_piece(&mut sink, &[7, 8]), want);
    }
    assert_eq!(rt; sink.bytes(), [7, 8, 7, 8].as_slice());
    assert_eq!(rt; sink.calls(), 4);
    assert_eq!(rt; sink.faults(), 2);
    Ok(())
}

#[test]
fn a_disk_is_written_over_and_past_its_end(rt: HostRuntime) -> Result<(), Fail> {
    let alloc = rt.alloc();
    let mut disk = MemDisk::new([1, 2, 3].to_vec(alloc)?, [3].to_vec(alloc)?);
    assert_eq!(rt; disk.length(), Ok(3));
    assert_eq!(rt; disk.write(2, &[7, 8, 9]), Ok(()));
    assert_eq!(rt; disk.write(0, &[5, 5]), Err(Failed));
    assert_eq!(rt; disk.write(0, &[6]), Ok(()));
    assert_eq!(rt; disk.sync(), Ok(()));
    assert_eq!(rt; disk.bytes(), [6, 2, 7, 8, 9].as_slice());
    assert_eq!(rt; disk.faults(), 1);
    Ok(())
}

#[test]
fn a_disk_is_read(rt: HostRuntime) -> Result<(), Fail> {
    let alloc = rt.alloc();
    let mut disk = MemDisk::new([1, 2, 3].to_vec(alloc)?, [2].to_vec(alloc)?);
    let mut into = [0; 2];
    for want in [Ok(()), Err(Failed)] {
        if disk.bytes().len() == 3 {
            assert_eq!(rt; disk.read(1, &mut into), want);
        }
    }
    assert_eq!(rt; into, [2, 3]);
    assert_eq!(rt; disk.calls(), 2);
    Ok(())
}

#[test]
fn a_crash_leaves_what_no_sync_made_sure_of(rt: HostRuntime) -> Result<(), Fail> {
    let alloc = rt.alloc();
    let mut disk = MemDisk::new([1, 2, 3].to_vec(alloc)?, Vec::new(alloc));
    assert_eq!(rt; disk.write(1, &[8, 9]), Ok(()));
    // What remains of the write, and what a crash then leaves.
    let cases: [(Remains, &[u8]); 4] = [
        (Remains::Whole, &[1, 8, 9]),
        (Remains::Nothing, &[1, 2, 3]),
        (Remains::FirstHalf, &[1, 8, 3]),
        (Remains::Filled(7), &[1, 7, 7, 7, 7, 7, 7, 7]),
    ];
    if disk.moment() == 1 {
        for (remains, left) in cases {
            let image = disk.crash_image(1, remains, Remains::Whole)?;
            assert_eq!(rt; image.items(), left);
        }
        let before = disk.crash_image(0, Remains::Nothing, Remains::Nothing)?;
        assert_eq!(rt; before.items(), [1, 2, 3].as_slice());
    }
    assert_eq!(rt; disk.sync(), Ok(()));
    assert_eq!(rt; disk.moment(), 2);
    let images = disk.crash_images(2, 1)?;
    for image in images.items() {
        assert_eq!(rt; image.items(), [1, 8, 9].as_slice());
    }
    assert_eq!(rt; disk.crash_images(0, 1)?.len(), 30);
    Ok(())
}

#[test]
fn a_gate_opens_last(rt: HostRuntime) -> Result<(), Fail> {
    let alloc = rt.alloc();
    // Stopped at each of the four calls, and at none: whether a crash may leave the gate open.
    for (stop, may_open) in [(1, false), (2, false), (3, true), (4, true), (5, true)] {
        let mut disk = MemDisk::new([9, 0].to_vec(alloc)?, Vec::new(alloc));
        disk.stop_at(stop);
        let done = write_gated(&mut disk, 1, &[7, 0]);
        assert_eq!(rt; done.is_ok(), stop == 5);
        let mut opened = false;
        let images = disk.crash_images(0, 1)?;
        for image in images.items() {
            let items = image.items();
            assert!(rt; items.len() >= 2 && items[0] == 9);
            if items[1] == 1 {
                assert!(rt; items.len() >= 4 && items[2..4] == [7, 0]);
                opened = true;
            }
        }
        assert_eq!(rt; opened, may_open);
        assert_eq!(rt; disk.faults(), if stop == 5 { 0 } else { 1 });
    }
    Ok(())
}

#[test]
fn a_reader_is_a_source(rt: HostRuntime) {
    let bytes = [1u8, 2, 3, 4, 5];
    let mut source = StdSource::new(bytes.as_slice());
    let mut into = [0; 4];
    for want in [Ok(4), Ok(1), Ok(0)] {
        assert_eq!(rt; read_four(&mut source, &mut into), want);
    }
    assert_eq!(rt; into, [5, 2, 3, 4]);
    assert_eq!(rt; source.faults(), 0);
    let mut broken = StdSource::new(Broken);
    assert_eq!(rt; read_four(&mut broken, &mut into), Err(Failed));
    assert_eq!(rt; broken.faults(), 1);
}

#[test]
fn a_writer_is_a_sink(rt: HostRuntime) {
    let mut held = [0u8; 3];
    let mut sink = StdSink::new(held.as_mut_slice());
    // A writer that is full takes nothing.
    for want in [Ok(2), Ok(1), Err(Failed)] {
        assert_eq!(rt; write_piece(&mut sink, &[1, 2]), want);
    }
    assert_eq!(rt; write_piece(&mut sink, &[]), Ok(0));
    assert_eq!(rt; sink.faults(), 1);
    drop(sink);
    assert_eq!(rt; held, [1, 2, 1]);
    let mut broken = StdSink::new(Broken);
    assert_eq!(rt; write_piece(&mut broken, &[1]), Err(Failed));
    assert_eq!(rt; broken.faults(), 1);
}

#[test]
fn a_file_is_a_disk(rt: HostRuntime) -> Result<(), Fail> {
    assert!(rt; FileDisk::open(&rt, "missing/disk").is_err());
    let mut disk = FileDisk::open(&rt, "disk")?;
    assert_eq!(rt; disk.length(), Ok(0));
    assert_eq!(rt; disk.write(0, b"pages"), Ok(()));
    assert_eq!(rt; disk.write(4, b"r!"), Ok(()));
    assert_eq!(rt; disk.sync(), Ok(()));
    assert_eq!(rt; disk.length(), Ok(6));
    let mut into = [0; 4];
    assert_eq!(rt; disk.read(2, &mut into), Ok(()));
    assert_eq!(rt; into, *b"ger!");
    assert_eq!(rt; disk.faults(), 0);
    assert_eq!(rt; disk.read(4, &mut into), Err(Failed));
    assert_eq!(rt; disk.write(LONGEST_DISK, b""), Ok(()));
    assert_eq!(rt; disk.write(LONGEST_DISK, b"!"), Err(Failed));
    assert_eq!(rt; disk.faults(), 2);
    Ok(())
}

#[test]
fn a_file_keeps_what_was_written(rt: HostRuntime) -> Result<(), Fail> {
    // What is written where, and what the file then holds once it is opened again.
    let writes: [(u64, &[u8], &[u8]); 4] = [
        (0, b"abcdef", b"abcdef"),
        (6, b"ghij", b"abcdefghij"),
        (8, b"IJKL", b"abcdefghIJKL"),
        (1, b"-", b"a-cdefghIJKL"),
    ];
    for (at, bytes, held) in writes {
        let mut disk = FileDisk::open(&rt, "kept")?;
        assert_eq!(rt; disk.write(at, bytes), Ok(()));
        drop(disk);
        let mut disk = FileDisk::open(&rt, "kept")?;
        assert_eq!(rt; disk.length(), Ok(held.len() as u64));
        let mut into = [0u8; 12];
        assert_eq!(rt; disk.read(0, &mut into[..held.len()]), Ok(()));
        assert_eq!(rt; into[..held.len()], *held);
        assert_eq!(rt; disk.faults(), 0);
    }
    Ok(())
}

#[test]
fn a_full_device_fails_as_a_disk(rt: HostRuntime) -> Result<(), Fail> {
    let mut disk = FileDisk::open(&rt, "/dev/full")?;
    assert_eq!(rt; disk.write(0, b"pages"), Err(Failed));
    assert_eq!(rt; disk.faults(), 1);
    assert_eq!(rt; disk.sync(), Err(Failed));
    assert_eq!(rt; disk.faults(), 2);
    assert_eq!(rt; disk.length(), Ok(0));
    assert_eq!(rt; disk.faults(), 2);
    Ok(())
}
