// Grants: a block of an order, a file page, a slab page.
ghost use Rattle.std.specs.Prelude.{◌≡◌};
ghost use Rattle.words.specs.Place.{address_at};
ghost use Rattle.buddy.specs.Request.{for_block, for_file, for_slab};
ghost use Rattle.region.specs.Sound.{Sound};
ghost use Rattle.region.specs.State.{st};
ghost use Rattle.region.specs.Steps.{GrantOk};
ghost use Rattle.sound_calls.specs.Code.{address_grant, code_grants};
ghost use Rattle.sound_calls.specs.Answer.{effect_of, grant};
ghost use Rattle.sound_calls.specs.Promise.{does};

use crate::{AllocError, refuse};
use grant::{allocate_pages_info, find_order};
use pages::good_item;
use region::{After, HeapMemoryRegion};
use words::place::{PageNumber, VirtAddr};
use words::word::{AllocatedInfo, FileInfo, MAX_ORDER, PageInfo, SlabPageInfo};

// The answer for a page of a region. (Its start and pages one by one, as `virt_addr` takes them.)
fn granted_at(start_virt: VirtAddr, page_count: usize, pfn: usize) -> Result<VirtAddr, AllocError>
    ensures { result ≡ address_grant (address_at start_virt.0 page_count pfn) }
{
    let address = PageNumber(pfn as u64).virt_addr(start_virt, page_count as u64);
    address.ok_or(AllocError::OutOfMemory)
}

// Grants a block that is what `info` says, or refuses for want of memory.
#[tactic(auto, unfolding(crate::specs::Code::code_grants))]
fn allocate_info(
    region: HeapMemoryRegion,
    words: &mut [u64],
    order: usize,
    info: PageInfo,
) -> After<Result<VirtAddr, AllocError>>
    requires { GrantOk order (st region words.old) }
    ensures { effect_of (grant result.answer) result.region words.new ≡ code_grants order info (st region words.old) }
{
    let granted = allocate_pages_info(region, words, order, info);
    let answer = match granted.answer {
        Some(pfn) => granted_at(region.start_virt, region.page_count, pfn),
        None => Err(AllocError::OutOfMemory),
    };
    After {
        region: granted.region,
        answer,
    }
}

#[tactic(auto, unfolding(crate::specs::Promise::does))]
pub fn allocate_pages(
    region: HeapMemoryRegion,
    words: &mut [u64],
    order: usize,
) -> After<Result<VirtAddr, AllocError>>
    requires { Sound region words.old }
    ensures { effect_of (grant result.answer) result.region words.new ≡ does region words.old (for_block order) }
{
    if MAX_ORDER <= order {
        return refuse(region, AllocError::InvalidPageOrder(order));
    }
    allocate_info(
        region,
        words,
        order,
        PageInfo::Allocated(AllocatedInfo { order }),
    )
}

pub fn allocate_file_page(
    region: HeapMemoryRegion,
    words: &mut [u64],
) -> After<Result<VirtAddr, AllocError>>
    requires { Sound region words.old }
    ensures { effect_of (grant result.answer) result.region words.new ≡ does region words.old for_file }
{
    allocate_info(region, words, 0, PageInfo::File(FileInfo { ref_count: 1 }))
}

// A heap without a free block refuses any item for want of memory; only then a bad item is refused as such.
pub fn allocate_slab_page(
    region: HeapMemoryRegion,
    words: &mut [u64],
    item_size: u64,
) -> After<Result<VirtAddr, AllocError>>
    requires { Sound region words.old }
    ensures { effect_of (grant result.answer) result.region words.new ≡ does region words.old (for_slab item_size) }
{
    if good_item(item_size) {
        return allocate_info(region, words, 0, PageInfo::Slab(SlabPageInfo { item_size }));
    }
    match find_order(region.next_page, 0) {
        Some(_) => refuse(region, AllocError::InvalidItem(item_size)),
        None => refuse(region, AllocError::OutOfMemory),
    }
}
