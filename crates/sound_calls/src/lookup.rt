// The layout of a block by an address in its first page.
ghost use Rattle.std.specs.Prelude.{◌≡◌};
ghost use Rattle.region.specs.Sound.{Sound};
ghost use Rattle.sound_calls.specs.Answer.{layout};
ghost use Rattle.sound_calls.specs.Promise.{layout_of, looks_up};
ghost use Rattle.sound_calls.specs.Code.{SaidOk};

use crate::{AllocError, SizeAlign};
use pages::{read_page_info, size};
use region::HeapMemoryRegion;
use words::place::{PAGE_SIZE, PageAt, VirtAddr};
use words::word::PageInfo;

// The layout that a word tells.
fn layout_of(said: Option<PageInfo>, vaddr: VirtAddr) -> Result<SizeAlign, AllocError>
    requires { SaidOk said }
    ensures { layout result ≡ layout_of vaddr.0 said }
{
    match said {
        Some(PageInfo::Allocated(ai)) => Ok(SizeAlign {
            size: size(ai.order) as u64 * PAGE_SIZE,
            align: PAGE_SIZE,
        }),
        Some(PageInfo::Slab(si)) => Ok(SizeAlign {
            size: si.item_size,
            align: si.item_size,
        }),
        _ => Err(AllocError::InvalidPageType(vaddr)),
    }
}

#[tactic(auto, unfolding(crate::specs::Promise::looks_up, crate::specs::Promise::looked_up))]
pub fn layout_from_ptr(
    region: HeapMemoryRegion,
    words: &[u64],
    vaddr: VirtAddr,
) -> Result<SizeAlign, AllocError>
    requires { Sound region words.now }
    ensures { layout result ≡ looks_up region words.now vaddr.0 }
{
    let place = vaddr.get_pfn(region.start_virt, region.page_count as u64);
    let page = match place {
        PageAt::Start(page) | PageAt::Within(page) => page,
        PageAt::Outside => return Err(AllocError::InvalidHeapAddress(vaddr)),
    };
    layout_of(read_page_info(words, page.0 as usize), vaddr)
}
