// The free of a block by its address.
ghost use Rattle.std.specs.Prelude.{◌≡◌};
ghost use Rattle.region.specs.Sound.{Sound};
ghost use Rattle.buddy.specs.Request.{on, to_free};
ghost use Rattle.sound_calls.specs.Answer.{effect_of, done};
ghost use Rattle.sound_calls.specs.Promise.{does};
ghost use Rattle.sound_calls.specs.Code.{freeable};

use crate::{AllocError, page_of, refuse};
use pages::read_page_info;
use region::{After, HeapMemoryRegion};
use release::free_page_order;
use words::place::VirtAddr;
use words::word::PageInfo;

// The order of the block that a free takes at this word.
fn order_to_free(said: Option<PageInfo>) -> Option<usize>
    ensures { result ≡ freeable said }
{
    match said {
        Some(PageInfo::Allocated(ai)) => Some(ai.order),
        Some(PageInfo::Slab(_) | PageInfo::File(_)) => Some(0),
        _ => None,
    }
}

#[tactic(auto, unfolding(crate::specs::Promise::does, crate::specs::Promise::at_page))]
pub fn free_page(
    region: HeapMemoryRegion,
    words: &mut [u64],
    vaddr: VirtAddr,
) -> After<Result<(), AllocError>>
    requires { Sound region words.old }
    ensures { effect_of (done result.answer) result.region words.new ≡ does region words.old (on to_free vaddr.0) }
{
    let pfn = match page_of(region, vaddr) {
        Ok(pfn) => pfn,
        Err(why) => return refuse(region, why),
    };
    if pfn < region.allocated {
        return refuse(region, AllocError::BootPage(vaddr));
    }
    let Some(order) = order_to_free(read_page_info(words, pfn)) else {
        return refuse(region, AllocError::InvalidPageType(vaddr));
    };
    let rest = free_page_order(region, words, pfn, order);
    After {
        region: rest,
        answer: Ok(()),
    }
}
