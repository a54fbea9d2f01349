// Pages that are read between two runs.
ghost use Rattle.dbmend.specs.Deeds.{HasDone};

use crate::edit::Edit;
use crate::looking::look_at;
use dbformat::{u16_at, u32_at};
use dbpage::{PageView, content_start};
use dbsource::{Geometry, NoMemory, RunError, Source, memory};
use std::alloc::Allocator;

// The bytes of a page, of which number it is.
#[derive(Drop)]
pub(crate) struct Paper<A: Allocator> {
    bytes: Vec<u8, A>,
    geometry: Geometry,
    page: u32,
}

impl<A: Allocator + Copy> Paper<A> {
    // Room for a page of a file.
    pub(crate) fn new_in(alloc: A, geometry: Geometry) -> Result<Paper<A>, NoMemory> {
        let bytes = memory::filled(alloc, 0u8, geometry.page_size as usize)?;
        Ok(Paper {
            bytes,
            geometry,
            page: 1,
        })
    }
}

impl<A: Allocator> Paper<A> {
    // The number of the page.
    pub(crate) fn page(&self) -> u32 {
        self.page
    }

    // The bytes of the page.
    pub(crate) fn bytes(&self) -> &[u8] {
        self.bytes.as_slice()
    }

    // Where it begins in the file.
    pub(crate) fn begins(&self) -> u64 {
        u64::from(self.page.saturating_sub(1)) * u64::from(self.geometry.page_size)
    }

    // Its usable bytes.
    pub(crate) fn usable(&self) -> u32 {
        self.geometry.usable
    }

    // Where its content area begins, as its head says.
    pub(crate) fn start(&self) -> u32 {
        if self.bytes.len() < 480 {
            return 0;
        }
        content_start(self.bytes.as_slice(), self.page)
    }

    // The page as one of a tree, if it is one.
    pub(crate) fn view(&self) -> Option<PageView<'_>> {
        let usable = self.geometry.usable;
        if usable < 480 || usable > 65536 || usable as usize > self.bytes.len() {
            return None;
        }
        PageView::new(self.bytes.as_slice(), self.page, usable).ok()
    }

    // Puts a number of two bytes at an offset of the page, if that is in it. 65536 is stored as 0.
    pub(crate) fn put_short(&mut self, at: u32, number: u32) {
        let stored = u16::try_from(number).unwrap_or(0);
        let at = at as usize;
        if at + 2 <= self.bytes.len() {
            self.bytes[at..at + 2].copy_from_slice(&stored.to_be_bytes());
        }
    }

    // Does the same, and returns the number that was there, for the caller to put back.
    pub(crate) fn replace_short(&mut self, at: u32, number: u32) -> Option<u32> {
        let stated = self.short_at(at)?;
        self.put_short(at, number);
        Some(stated)
    }

    // The number of two bytes at an offset of the page, if that is in it.
    pub(crate) fn short_at(&self, at: u32) -> Option<u32> {
        if at as usize + 2 <= self.bytes.len() {
            Some(u32::from(u16_at(self.bytes.as_slice(), at)))
        } else {
            None
        }
    }

    // The number at an offset of the page, if that is in it.
    pub(crate) fn number_at(&self, at: u32) -> Option<u32> {
        if at as usize + 4 <= self.bytes.len() {
            Some(u32_at(self.bytes.as_slice(), at))
        } else {
            None
        }
    }
}

// Reads a page of the file with some edits.
pub(crate) fn read_page<A: Allocator, S: Source>(
    source: &mut S,
    edits: &[Edit],
    page: u32,
    paper: &mut Paper<A>,
) -> Result<(), RunError>
    ensures { HasDone S.Source result 0 0 (λ a deeds. Unit {0}) source.old source.new }
{
    paper.page = page;
    let begins = paper.begins();
    if paper.bytes.len() > 65536 {
        return Ok(());
    }
    look_at(source, begins, paper.bytes.as_mut_slice())?;
    for edit in edits {
        edit.put_over(begins, paper.bytes.as_mut_slice());
    }
    Ok(())
}
