// Set-up of a region on lent words: boot and metadata words, then every managed page freed (C70, C71).
// For the public set-up call, which refuses bad numbers first. Below it stand the steps of `region` and the free of `release`.
// (A block's page and order go one by one, as in `pages`.)
#![tactic(auto)]

ghost use Rattle.std.specs.Prelude.{◌≡◌, length};
ghost use Rattle.region.specs.Layout.{Limits};
ghost use Rattle.region.specs.State.{st};
ghost use Rattle.setup.specs.Steps.{GrowOk, grow_block, GrowBlocksOk, grow_blocks, GrowSpanOk, grow_span, init_memory};

use pages::{fill_words, mark_compound_page, size, write_page_info};
use region::{HeapMemoryRegion, bare_region};
use release::free_page_order;
use words::place::VirtAddr;
use words::word::{AllocatedInfo, MAX_ORDER, PageInfo, ReservedInfo};

// The pages of a block of the highest order.
const RUN: usize = 32;

// Makes one more block of pages that were not managed: it is marked and counted as out, then freed.
#[tactic(auto, unfolding(crate::specs::Steps::grow_block, crate::specs::Steps::add_block))]
pub fn grow_block(
    region: HeapMemoryRegion,
    words: &mut [u64],
    pfn: usize,
    order: usize,
) -> HeapMemoryRegion
    requires { GrowOk order pfn (st region words.old) }
    ensures { st result words.new ≡ grow_block order pfn (st region words.old) }
{
    write_page_info(words, pfn, PageInfo::Allocated(AllocatedInfo { order }));
    mark_compound_page(words, pfn, order);
    let blocks = region.nr_pages[order];
    free_page_order(region.with_blocks(order, blocks + 1), words, pfn, order)
}

// Makes `count` more blocks of an order, from page `from` on, ascending.
pub fn grow_blocks(
    region: HeapMemoryRegion,
    words: &mut [u64],
    from: usize,
    count: usize,
    order: usize,
) -> HeapMemoryRegion
    requires { GrowBlocksOk order from count (st region words.old) }
    ensures { st result words.new ≡ grow_blocks order from count (st region words.old) }
{
    let step = size(order);
    let mut next = region;
    for i in 0..count {
        next = grow_block(next, words, from + i * step, order);
    }
    next
}

// Makes blocks of the pages from `from` up to `to`: whole runs of 32 pages first, then the pages below them, then those above.
#[tactic(auto, unfolding(crate::specs::Steps::grow_span, crate::specs::Steps::grow_from))]
pub fn grow_span(
    region: HeapMemoryRegion,
    words: &mut [u64],
    from: usize,
    to: usize,
) -> HeapMemoryRegion
    requires { GrowSpanOk from to (st region words.old) }
    ensures { st result words.new ≡ grow_span from to (st region words.old) }
{
    let first = from.next_multiple_of(RUN);
    let last = to / RUN * RUN;
    if first < last {
        let runs = grow_blocks(region, words, first, (last - first) / RUN, MAX_ORDER - 1);
        let low = grow_blocks(runs, words, from, first - from, 0);
        grow_blocks(low, words, last, to - last, 0)
    } else {
        grow_blocks(region, words, from, to - from, 0)
    }
}

// Sets a region up: all words written, and the managed pages made blocks and freed. (Its numbers come one by one: of them the record
// is made here.)
#[tactic(auto, unfolding(crate::specs::Steps::init_memory, crate::specs::Steps::blank))]
pub fn init_memory(
    words: &mut [u64],
    start_virt: VirtAddr,
    page_count: usize,
    allocated: usize,
) -> HeapMemoryRegion
    requires { Limits start_virt.0 page_count allocated (length words.old) }
    ensures { st result words.new ≡ init_memory start_virt page_count allocated words.old }
{
    let alloc_pages = region::alloc_pages(page_count);
    fill_words(
        words,
        0,
        alloc_pages,
        PageInfo::Allocated(AllocatedInfo { order: 0 }),
    );
    fill_words(
        words,
        alloc_pages,
        page_count - alloc_pages,
        PageInfo::Reserved(ReservedInfo),
    );
    grow_span(
        bare_region(start_virt, page_count, allocated),
        words,
        allocated,
        alloc_pages,
    )
}
