// Blocks: a split into two halves, a merge of two buddies (C30, C31). (Orders below 6 are asked in contracts, as in `pages`.)
ghost use Rattle.std.specs.Prelude.{◌≡◌, ◌-◌, ◌<◌};
ghost use Rattle.region.specs.State.{st, Gives, with_blocks, SplitOk, split, lower, MergeOk, merge};

use crate::{After, HeapMemoryRegion};
use pages::{init_compound_page, mark_compound_page, size, write_page_info};
use words::word::{AllocatedInfo, PageInfo};

impl HeapMemoryRegion {
    // The record with another number of blocks of one order. (By way of a local: the form that document 01 names.)
    #[tactic(auto, unfolding(crate::specs::State::with_blocks))]
    pub fn with_blocks(self, order: usize, count: usize) -> HeapMemoryRegion
        requires { order < 6 }
        ensures { result ≡ with_blocks self order count }
    {
        let mut next = self;
        next.nr_pages[order] = count;
        next
    }

    // Splits a block that is out: its halves go ahead of the next lower list, the lower half first.
    #[tactic(auto, unfolding(crate::specs::State::split))]
    pub fn split_page(self, words: &mut [u64], pfn: usize, order: usize) -> HeapMemoryRegion
        requires { SplitOk pfn order (st self words.old) }
        ensures { st result words.new ≡ split pfn (order - 1) (st self words.old) }
    {
        let new_order = order - 1;
        let pfn2 = pfn + size(new_order);
        let next_pfn = self.next_page[new_order];
        init_compound_page(words, pfn, new_order, pfn2);
        init_compound_page(words, pfn2, new_order, next_pfn);
        let wholes = self.nr_pages[order];
        let halves = self.nr_pages[new_order];
        let free = self.free_pages[new_order];
        self.with_blocks(order, wholes - 1)
            .with_blocks(new_order, halves + 2)
            .with_list(new_order, pfn, free + 2)
    }

    // Makes one block of two buddies that are out, one order up; the lower page is its head.
    #[tactic(auto, unfolding(crate::specs::State::merge))]
    pub fn merge_pages(
        self,
        words: &mut [u64],
        pfn1: usize,
        pfn2: usize,
        order: usize,
    ) -> After<usize>
        requires { MergeOk pfn1 pfn2 order (st self words.old) }
        ensures { Gives (lower pfn1 pfn2) (merge (lower pfn1 pfn2) order (st self words.old)) result.answer (st result.region words.new) }
    {
        let new_order = order + 1;
        let pfn = pfn1.min(pfn2);
        write_page_info(
            words,
            pfn,
            PageInfo::Allocated(AllocatedInfo { order: new_order }),
        );
        mark_compound_page(words, pfn, new_order);
        let halves = self.nr_pages[order];
        let wholes = self.nr_pages[new_order];
        let next = self
            .with_blocks(order, halves - 2)
            .with_blocks(new_order, wholes + 1);
        After {
            region: next,
            answer: pfn,
        }
    }
}
