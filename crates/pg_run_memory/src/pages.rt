//! Words in pages, of which those that are written take room.

ghost use Rattle.std.specs.Prelude.{◌≡◌, ◌<◌, ◌/◌, ◌%◌, ◌^◌, length, replicate, slice_index, slice_set, IfOk};
ghost use Rattle.pg_run_memory.specs.Pages.{place_in_arena, used_with, with_slot};

use crate::lazy_words::LazyWords;
use std::alloc::{AllocError, Global};
use std::marker::Model;

/// The granules of one page: 1 KiB.
pub(crate) const PAGE_GRANULES: usize = 128;

/// The granules of a part of memory, in pages of equal length. A page gets a slot of the arena, the next one, when it
/// is first written, so that a write far behind the others touches no more than one page. Slot 0 is a page of zeros
/// that is never written: it stands for each page that has no slot yet.
#[derive(Drop)]
pub(crate) struct Pages {
    /// The slot of each page.
    table: LazyWords,
    /// The words of slot 0, of slot 1, and so on.
    arena: LazyWords,
    /// The last slot that a page has.
    used: u64,
}

impl Model for Pages {
    ghost use Rattle.pg_run_memory.specs.Memory.{Words};
    ghost use Rattle.pg_run_memory.specs.Pages.{ArePages, paged};

    ghost Value = { Words };

    ghost view = { λ p. paged p.table p.arena };

    ghost invariant = { λ p. ArePages p.table p.arena p.used };
}

/// Gives a page the next slot, where it has none.
fn give_slot(table: &mut LazyWords, used: &mut u64, page: usize)
    requires page { page < length table.old }
    requires used { used.old < 2 ^ 32 }
    ensures table { table.new ≡ with_slot table.old used.old page }
    ensures used { used.new ≡ used_with table.old used.old page }
{
    if table.get(page) == 0 {
        *used += 1;
        table.set(page, *used);
    }
}

/// Where in the arena a granule's word stands.
fn place_of(table: &LazyWords, granule: usize) -> usize
    requires { slice_index table.now (granule / PAGE_GRANULES) < 2 ^ 32 }
    ensures { result ≡ place_in_arena table.now granule }
{
    let slot = table.get(granule / PAGE_GRANULES) as usize;
    slot * PAGE_GRANULES + granule % PAGE_GRANULES
}

impl Pages {
    /// So many granules of zeros, in whole pages.
    pub(crate) fn zeros(alloc: Global, count: usize) -> Result<Pages, AllocError>
        requires whole { count % PAGE_GRANULES ≡ 0 }
        requires small { count < 2 ^ 32 }
        ensures { IfOk result (λ p. p ≡ replicate count 0) }
    {
        Ok(Pages {
            table: LazyWords::zeros(alloc, count / PAGE_GRANULES)?,
            arena: LazyWords::zeros(alloc, count + PAGE_GRANULES)?,
            used: 0,
        })
    }

    /// The number of the eight bytes of a granule.
    pub(crate) fn get(&self, granule: u32) -> u64
        ensures { result ≡ slice_index self.now granule }
    {
        self.arena.get(place_of(&self.table, granule as usize))
    }

    /// Puts a number into the eight bytes of a granule. Takes no memory.
    pub(crate) fn set(&mut self, granule: u32, word: u64)
        requires { granule < length self.old }
        ensures { self.new ≡ slice_set self.old granule word }
    {
        let page = granule as usize / PAGE_GRANULES;
        give_slot(&mut self.table, &mut self.used, page);
        let place = place_of(&self.table, granule as usize);
        self.arena.set(place, word);
    }
}
