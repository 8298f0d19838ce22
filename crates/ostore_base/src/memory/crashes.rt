//! What a crash may leave of a disk in memory, built for tests.

ghost use Rattle.std.specs.Prelude.{◌≡◌, ◌≤◌, ◌++◌, ◌∷◌, [], length, drop, All, IfOk, OnOk};
ghost use Rattle.ostore_base.specs.Disk.{replaced};
ghost use Rattle.ostore_base.specs.MemoryDisk.{content_after, LeftSince};
ghost use Rattle.ostore_base.specs.CrashImages.{filled, remaining, remaining_torn, image_left, cases_tried, tried, TriesAll};

use crate::list::ListOf;
use crate::memory::disk_call::DiskCall;
use crate::out_of_memory::OutOfMemory;
use std::collections::VecDeque;

/// What remains of a write that no sync made sure of.
#[derive(Clone, Copy, Debug, PartialEq, Eq)]
pub enum Remains {
    Whole,
    Nothing,
    /// The first half of its bytes, rounded down.
    FirstHalf,
    /// This byte, at each place of its range and at five more past the end of the disk.
    Filled(u8),
}

/// How many bytes stand past the end after a crash that filled a range.
const PAST: usize = 5;

// Writes bytes over what is there and past the end.
fn put_over(image: &mut Vec<u8>, at: usize, bytes: &[u8]) -> Result<(), OutOfMemory>
    ensures { OnOk result (image.new.items ≡ replaced at bytes.now image.old.items) }
{
    let at = at.min(image.len());
    let inside = bytes.len().min(image.len() - at);
    image.extend_from_slice(&bytes[inside..])?;
    image[at..at + inside].copy_from_slice(&bytes[..inside]);
    Ok(())
}

// Fills a range with a byte, and adds some past the end.
fn fill_over(image: &mut Vec<u8>, at: usize, size: usize, byte: u8) -> Result<(), OutOfMemory>
    ensures { OnOk result (image.new.items ≡ filled byte at size image.old.items) }
{
    let mut filled = Vec::new(*image.allocator());
    filled.resize(size, byte)?;
    put_over(image, at, &filled)?;
    image.extend_from_slice(&[byte; PAST])?;
    Ok(())
}

// Leaves of a write what remains.
fn put_remains(
    image: &mut Vec<u8>,
    at: usize,
    bytes: &[u8],
    remains: Remains,
) -> Result<(), OutOfMemory>
    ensures { OnOk result (image.new.items ≡ remaining remains at bytes.now image.old.items) }
{
    match remains {
        Remains::Whole => put_over(image, at, bytes),
        Remains::Nothing => Ok(()),
        Remains::FirstHalf => put_over(image, at, &bytes[..bytes.len() / 2]),
        Remains::Filled(byte) => fill_over(image, at, bytes.len(), byte),
    }
}

// Leaves of a write that failed what remains.
fn tear_remains(
    image: &mut Vec<u8>,
    at: usize,
    size: usize,
    remains: Remains,
) -> Result<(), OutOfMemory>
    ensures { OnOk result (image.new.items ≡ remaining_torn remains at size image.old.items) }
{
    match remains {
        Remains::Filled(byte) => fill_over(image, at, size, byte),
        Remains::Whole | Remains::Nothing | Remains::FirstHalf => Ok(()),
    }
}

// What the disk read as before the newest calls, so many, were made.
fn content_before(
    first: &[u8],
    past: &VecDeque<DiskCall>,
    skip: usize,
) -> Result<Vec<u8>, OutOfMemory>
    requires { skip ≤ length past.now.items }
    ensures { IfOk result
        (λ held. held.items ≡ content_after first.now (drop skip past.now.items)) }
{
    let mut held = Vec::from_slice(*past.allocator(), first)?;
    let mut call = past.len();
    while call > skip {
        call -= 1;
        if let DiskCall::Written { at, bytes } = &past[call] {
            put_over(&mut held, *at as usize, bytes.items())?;
        }
    }
    Ok(held)
}

/// What a crash may leave before the newest calls, so many, where `newest` remains of the last write
/// and `others` of each earlier one that no sync made sure of.
pub(super) fn crashed(
    first: &[u8],
    past: &VecDeque<DiskCall>,
    skip: usize,
    newest: Remains,
    others: Remains,
) -> Result<Vec<u8>, OutOfMemory>
    requires { skip ≤ length past.now.items }
    ensures { IfOk result (λ image.
        image.items ≡ image_left first.now (drop skip past.now.items) newest others) }
{
    if skip >= past.len() {
        return Ok(Vec::from_slice(*past.allocator(), first)?);
    }
    match &past[skip] {
        DiskCall::Synced => content_before(first, past, skip + 1),
        DiskCall::Written { at, bytes } => {
            let mut image = crashed(first, past, skip + 1, others, others)?;
            put_remains(&mut image, *at as usize, bytes.items(), newest)?;
            Ok(image)
        }
        DiskCall::Torn { at, size } => {
            let mut image = crashed(first, past, skip + 1, others, others)?;
            tear_remains(&mut image, *at as usize, *size, newest)?;
            Ok(image)
        }
    }
}

// What remains of the newest write, and of those before it: the ten cases that are tried.
fn cases(filler: u8) -> [(Remains, Remains); 10]
    ensures { result ≡ cases_tried filler }
{
    let filled = Remains::Filled(filler);
    [
        (Remains::Whole, Remains::Whole),
        (Remains::Nothing, Remains::Nothing),
        (Remains::FirstHalf, Remains::FirstHalf),
        (filled, filled),
        (Remains::Nothing, Remains::Whole),
        (Remains::FirstHalf, Remains::Whole),
        (filled, Remains::Whole),
        (Remains::Whole, Remains::Nothing),
        (Remains::Whole, Remains::FirstHalf),
        (Remains::Whole, filled),
    ]
}

// Adds an image of a moment.
fn add_image(
    images: &mut ListOf<ListOf<u8>>,
    first: &[u8],
    past: &VecDeque<DiskCall>,
    skip: usize,
    case: (Remains, Remains),
) -> Result<(), OutOfMemory>
    requires { skip ≤ length past.now.items }
    ensures { OnOk result (images.new ≡ images.old
        ++ image_left first.now (drop skip past.now.items) case.0 case.1 ∷ []) }
{
    let image = crashed(first, past, skip, case.0, case.1)?;
    images.push(ListOf::from_vec(image))?;
    Ok(())
}

// Adds the images of one moment.
fn add_images(
    images: &mut ListOf<ListOf<u8>>,
    first: &[u8],
    past: &VecDeque<DiskCall>,
    skip: usize,
    filler: u8,
) -> Result<(), OutOfMemory>
    requires { skip ≤ length past.now.items }
    ensures { OnOk result
        (images.new ≡ images.old ++ tried first.now (drop skip past.now.items) filler) }
{
    let cases = cases(filler);
    for number in 0..cases.len() {
        add_image(images, first, past, skip, cases[number])?;
    }
    Ok(())
}

/// What a crash may leave after the first `since` of the recorded calls, and after each one more.
pub(super) fn images_since(
    first: &[u8],
    past: &VecDeque<DiskCall>,
    since: usize,
    filler: u8,
) -> Result<ListOf<ListOf<u8>>, OutOfMemory>
    ensures images { IfOk result (All (LeftSince first.now past.now.items since)) }
    ensures all { IfOk result (TriesAll first.now past.now.items since filler) }
{
    let mut images = ListOf::new(*past.allocator());
    for moment in since..past.len() + 1 {
        add_images(&mut images, first, past, past.len() - moment, filler)?;
    }
    Ok(images)
}
