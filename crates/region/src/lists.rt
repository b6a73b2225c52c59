// The six lists: take the head, put at the head, take a named block out (C20 to C22). (Orders below 6 are asked in contracts, as in `pages`.)
ghost use Rattle.std.specs.Prelude.{◌≡◌, ◌<◌};
ghost use Rattle.region.specs.State.{st, Gives, with_list, TakeOk, take_head, head_taken, PutOk, put_head, WalkOk, page_before, CutOk, cut, PullOk, pull, pulls};

use crate::{After, HeapMemoryRegion};
use pages::{next_free_pfn, write_page_info};
use words::word::{AllocatedInfo, FreeInfo, NO_PAGE, PageInfo};

// The page before `pfn` on the list that goes on at `first`, looked for in at most `count` steps.
pub fn page_before(words: &[u64], first: usize, pfn: usize, count: usize) -> Option<usize>
    requires { WalkOk count first pfn words.now }
    ensures { result ≡ page_before count first pfn words.now }
{
    let mut old_pfn = first;
    for _ in 0..count {
        let current_pfn = next_free_pfn(words, old_pfn);
        if current_pfn == NO_PAGE {
            return None;
        }
        if current_pfn == pfn {
            return Some(old_pfn);
        }
        old_pfn = current_pfn;
    }
    None
}

impl HeapMemoryRegion {
    // The record with another head and count of one list. (By way of a local: the form that document 01 names.)
    #[tactic(auto, unfolding(crate::specs::State::with_list))]
    pub fn with_list(self, order: usize, head: usize, free: usize) -> HeapMemoryRegion
        requires { order < 6 }
        ensures { result ≡ with_list self order head free }
    {
        let mut next = self;
        next.next_page[order] = head;
        next.free_pages[order] = free;
        next
    }

    // Takes the head of list `order`, and marks it Allocated.
    #[tactic(auto, unfolding(crate::specs::State::take_head, crate::specs::State::head_taken))]
    pub fn get_next_page(self, words: &mut [u64], order: usize) -> After<Option<usize>>
        requires { TakeOk order (st self words.old) }
        ensures { Gives (head_taken order (st self words.old)) (take_head order (st self words.old)) result.answer (st result.region words.new) }
    {
        let pfn = self.next_page[order];
        if pfn == NO_PAGE {
            return After {
                region: self,
                answer: None,
            };
        }
        let next = next_free_pfn(words, pfn);
        write_page_info(words, pfn, PageInfo::Allocated(AllocatedInfo { order }));
        let free = self.free_pages[order];
        After {
            region: self.with_list(order, next, free - 1),
            answer: Some(pfn),
        }
    }

    // Puts a block at the head of list `order`.
    #[tactic(auto, unfolding(crate::specs::State::put_head))]
    pub fn free_page_raw(self, words: &mut [u64], pfn: usize, order: usize) -> HeapMemoryRegion
        requires { PutOk pfn order (st self words.old) }
        ensures { st result words.new ≡ put_head pfn order (st self words.old) }
    {
        let next_page = self.next_page[order];
        write_page_info(words, pfn, PageInfo::Free(FreeInfo { next_page, order }));
        let free = self.free_pages[order];
        self.with_list(order, pfn, free + 1)
    }

    // Takes `pfn`, which stands after `before` on list `order`, out of it.
    #[tactic(auto, unfolding(crate::specs::State::cut))]
    pub fn cut_page(
        self,
        words: &mut [u64],
        before: usize,
        pfn: usize,
        order: usize,
    ) -> HeapMemoryRegion
        requires { CutOk before pfn order (st self words.old) }
        ensures { st result words.new ≡ cut before pfn order (st self words.old) }
    {
        let next_page = next_free_pfn(words, pfn);
        write_page_info(words, before, PageInfo::Free(FreeInfo { next_page, order }));
        write_page_info(words, pfn, PageInfo::Allocated(AllocatedInfo { order }));
        let head = self.next_page[order];
        let free = self.free_pages[order];
        self.with_list(order, head, free - 1)
    }

    // Takes the block `pfn` out of list `order`; the others keep their order.
    #[tactic(auto, unfolding(crate::specs::State::pull, crate::specs::State::pulls))]
    pub fn allocate_pfn(self, words: &mut [u64], pfn: usize, order: usize) -> After<bool>
        requires { PullOk pfn order (st self words.old) }
        ensures { Gives (pulls pfn order (st self words.old)) (pull pfn order (st self words.old)) result.answer (st result.region words.new) }
    {
        let first_pfn = self.next_page[order];
        if first_pfn == NO_PAGE {
            return After {
                region: self,
                answer: false,
            };
        }
        if first_pfn == pfn {
            let After { region, .. } = self.get_next_page(words, order);
            return After {
                region,
                answer: true,
            };
        }
        let Some(old_pfn) = page_before(words, first_pfn, pfn, self.free_pages[order]) else {
            return After {
                region: self,
                answer: false,
            };
        };
        After {
            region: self.cut_page(words, old_pfn, pfn, order),
            answer: true,
        }
    }
}
