//! A client's frames and the pages in them.

ghost use Rattle.std.specs.Prelude.{◌≡◌, ◌≤◌, ◌<◌, ◌↔◌, ◌-◌, None, Some, IfOk, IfErr, IfSome, IsErr, length, replicate, slice_index, nat_lt, if◌then◌else◌, vec_capacity};
ghost use Rattle.std.specs.List.{range_with_len};
ghost use Rattle.ostore_base.specs.Limits.{most_pages};
ghost use Rattle.ostore_address_space.specs.Frames.{most_frames, frames_of, page_in, frame_of, free_frames, with_page, reserve, ArePaired, HasNoFrame, KeepsFrames};

use crate::mapper::Mapper;
use ostore_base::{ClientNo, MAX_PAGES, OutOfMemory, PageNo};
use std::alloc::Global;
use std::marker::Model;
use thiserror::Error;

/// A frame of an address space, counted from 1.
#[derive(Clone, Copy, Debug, PartialEq, Eq)]
pub struct Frame(pub u32);

/// A page was to have a frame, and all are reserved for other pages.
#[derive(Clone, Copy, Debug, PartialEq, Eq, Error)]
#[error("all {frames} frames are reserved")]
pub struct SpaceFull {
    /// How many frames there are.
    pub frames: u32,
}

/// The frames of a client, which contracts see as its number and the list of the pages in them.
#[derive(Debug, Drop)]
pub struct Space {
    client: ClientNo,
    /// The page in each frame, from frame 1 on.
    pages: Vec<Option<PageNo>>,
    /// The frame of each page, from page 0 on.
    frames: Vec<Option<Frame>>,
    /// The frames without a page, ascending. There is room for all of them.
    free: Vec<u32>,
}

impl Model for Space {
    ghost use Rattle.std.specs.Prelude.{vec_capacity};
    ghost use Rattle.ostore_address_space.specs.Frames.{Frames, frames_of};
    ghost use Rattle.ostore_address_space.specs.inside.Kept.{IsKept};

    ghost Value = { Frames };

    ghost view = { λ s. frames_of s.client s.pages.items };

    ghost invariant = { λ s. let room = vec_capacity s.free in
        IsKept s.pages.items s.frames.items s.free.items room };
}

/// Makes the list of all frames, ascending. There is room for them.
fn refill(free: &mut Vec<u32>, frames: u32)
    requires most { frames ≤ most_frames }
    requires room { frames ≤ vec_capacity free.old }
    ensures all { free.new.items ≡ range_with_len 1 frames }
    ensures room { vec_capacity free.old ≤ vec_capacity free.new }
{
    free.clear();
    for i in 0..frames {
        let pushed = free.push(i + 1).is_ok();
        prove!(pushed);
    }
}

/// Slots with nothing in them.
fn empty_slots<T: Copy>(alloc: Global, count: usize) -> Result<Vec<Option<T>>, OutOfMemory>
    ensures { IfOk result (λ slots. slots.items ≡ replicate count None) }
{
    let mut slots = Vec::with_capacity(alloc, count)?;
    for _i in 0..count {
        slots.push(None)?;
    }
    Ok(slots)
}

/// Takes out what is in the slots.
fn empty<T: Copy>(slots: &mut Vec<Option<T>>)
    ensures { slots.new.items ≡ replicate (length slots.old.items) None }
{
    for slot in slots.iter_mut() {
        *slot = None;
    }
}

/// Which of some free frames is meant by an index.
fn index_meant(choice: u32, count: u32) -> u32
    requires { 0 < count }
    ensures meant { result ≡ (if nat_lt choice count then choice else 0) }
    ensures below { result < count }
{
    if choice < count { choice } else { 0 }
}

impl Space {
    /// The space of a client with the frames 1 to `frames`, all of them free. No other call takes memory.
    /// There are 65,536 frames at most.
    pub fn new(alloc: Global, client: ClientNo, frames: u32) -> Result<Space, OutOfMemory>
        requires { frames ≤ most_frames }
        ensures { IfOk result (λ space. space ≡ frames_of client (replicate frames None)) }
    {
        let pages = empty_slots(alloc, frames as usize)?;
        let of_pages = empty_slots(alloc, MAX_PAGES)?;
        let mut free = Vec::with_capacity(alloc, frames as usize)?;
        refill(&mut free, frames);
        Ok(Space {
            client,
            pages,
            frames: of_pages,
            free,
        })
    }

    /// The page in a frame, and None exactly where there is none.
    pub fn page_at(&self, frame: Frame) -> Option<PageNo>
        ensures page { result ≡ page_in self.now.pages frame.0 }
        ensures known { IfSome result (λ page. page.0 < most_pages) }
    {
        if frame.0 == 0 || frame.0 as usize > self.pages.len() {
            return None;
        }
        self.pages[frame.0 as usize - 1]
    }

    /// The frame of a page, and None exactly where it has none.
    pub fn frame_of(&self, page: PageNo) -> Option<Frame>
        ensures frame { result ≡ frame_of self.now.pages page.0 }
        ensures one { IfSome result (λ frame. (1 ≤ frame.0) × (frame.0 ≤ most_frames)) }
    {
        if page.0 as usize >= self.frames.len() {
            return None;
        }
        self.frames[page.0 as usize]
    }

    /// Puts a page that has no frame into a free one, by its place among the free ones.
    fn give(&mut self, page: PageNo, index: u32) -> Frame
        requires known { page.0 < most_pages }
        requires none { frame_of self.old.pages page.0 ≡ None }
        requires free { index < length (free_frames self.old.pages) }
        ensures frame { result.0 ≡ slice_index (free_frames self.old.pages) index }
        ensures given { let pages = with_page self.old.pages result.0 page in
            self.new ≡ frames_of self.old.client pages }
        ensures there { frame_of self.new.pages page.0 ≡ Some result }
    {
        let frame = self.free.remove(index as usize);
        self.pages[frame as usize - 1] = Some(page);
        self.frames[page.0 as usize] = Some(Frame(frame));
        Frame(frame)
    }

    /// How many frames hold no page.
    fn count_free(&self) -> u32
        ensures { result ≡ length (free_frames self.now.pages) }
    {
        self.free.len() as u32
    }

    /// How many frames there are.
    fn count(&self) -> u32
        ensures { result ≡ length self.now.pages }
    {
        self.pages.len() as u32
    }

    /// The frame of a page. Where it has none, it gets the free one that the mapper chooses. SpaceFull
    /// comes exactly where it has none and none is free; the space is then as it was. All other pages keep
    /// their frames. The page's number is below 16,384. It takes no memory.
    pub fn reserve<M: Mapper>(&mut self, page: PageNo, mapper: &M) -> Result<Frame, SpaceFull>
        requires { page.0 < most_pages }
        ensures reserved { self.new ≡ reserve (M.choice mapper.now) self.old page }
        ensures frame { IfOk result (λ frame. frame_of self.new.pages page.0 ≡ Some frame) }
        ensures kept { KeepsFrames self.old.pages self.new.pages }
        ensures full { IsErr result ↔ HasNoFrame self.old.pages page.0 }
        ensures why { IfErr result (λ full. full.frames ≡ length self.old.pages) }
    {
        if let Some(frame) = self.frame_of(page) {
            return Ok(frame);
        }
        let count = self.count_free();
        if count == 0 {
            return Err(SpaceFull {
                frames: self.count(),
            });
        }
        let choice = mapper.choose(self.client, page, count);
        Ok(self.give(page, index_meant(choice, count)))
    }

    /// Takes the pages out of all frames. It takes no memory.
    pub fn release_all(&mut self)
        ensures { self.new ≡ frames_of self.old.client (replicate (length self.old.pages) None) }
    {
        let count = self.pages.len() as u32;
        empty(&mut self.pages);
        empty(&mut self.frames);
        refill(&mut self.free, count);
    }
}

/// A law, as the contract of a function that does nothing: frames and pages are pairs, one to one.
pub fn frames_are_paired(space: &Space)
    ensures { ArePaired space.now.pages }
{
    let _ = &space.pages;
}
