// Returning a block: the buddy, the merge, the recursion up the orders (C50).
// For the public calls that free and put, and for set-up. Below it stand the steps of `region`.
// (A block's page and order go one by one, as in `pages`.)
#![tactic(auto)]

ghost use Rattle.std.specs.Prelude.{◌≡◌, ◌-◌};
ghost use Rattle.region.specs.State.{st, Gives};
ghost use Rattle.region.specs.Steps.{NeighborOk, neighbor, TryOk, try_page, try_join, FreeOk, free_from};

use pages::{read_page_info, size};
use region::{After, HeapMemoryRegion};
use words::word::{MAX_ORDER, PageInfo};

// The buddy of a block: below order 5, and inside a region of `page_count` pages.
#[tactic(auto, unfolding(region::specs::Steps::neighbor))]
pub fn compound_neighbor(page_count: usize, pfn: usize, order: usize) -> Option<usize>
    requires { NeighborOk pfn order }
    ensures { result ≡ neighbor page_count pfn order }
{
    if MAX_ORDER - 1 <= order {
        return None;
    }
    let half = size(order);
    let mate = if pfn % (2 * half) == 0 {
        pfn + half
    } else {
        pfn - half
    };
    if mate < page_count { Some(mate) } else { None }
}

// Merges a block that is out with its buddy, if that is Free of the same order.
pub fn try_to_merge_page(
    region: HeapMemoryRegion,
    words: &mut [u64],
    pfn: usize,
    order: usize,
) -> After<Option<usize>>
    requires { TryOk pfn order (st region words.old) }
    ensures { Gives (try_page pfn order (st region words.old)) (try_join pfn order (st region words.old)) result.answer (st result.region words.new) }
{
    let kept = After {
        region,
        answer: None,
    };
    let Some(neighbor_pfn) = compound_neighbor(region.page_count, pfn, order) else {
        return kept;
    };
    let Some(PageInfo::Free(fi)) = read_page_info(words, neighbor_pfn) else {
        return kept;
    };
    if fi.order != order {
        return kept;
    }
    let pulled = region.allocate_pfn(words, neighbor_pfn, order);
    let merged = pulled.region.merge_pages(words, pfn, neighbor_pfn, order);
    After {
        region: merged.region,
        answer: Some(merged.answer),
    }
}

// Frees a block: merges it with its buddy while it can, one order up each time, then puts it on its list.
pub fn free_page_order(
    region: HeapMemoryRegion,
    words: &mut [u64],
    pfn: usize,
    order: usize,
) -> HeapMemoryRegion
    requires { FreeOk (5 - order) pfn order (st region words.old) }
    ensures { st result words.new ≡ free_from (5 - order) pfn order (st region words.old) }
{
    let tried = try_to_merge_page(region, words, pfn, order);
    let Some(new_pfn) = tried.answer else {
        // What did not merge is as it was.
        return region.free_page_raw(words, pfn, order);
    };
    free_page_order(tried.region, words, new_pfn, order + 1)
}
