// Page numbers and addresses: two kinds of number, and the one way from each to the other.
ghost use Rattle.std.specs.Prelude.{◌≡◌};
ghost use Rattle.words.specs.Place.{page_at, address_at};

pub const PAGE_SIZE: u64 = 4096;

// The number of a page in its region, from 0.
#[derive(Clone, Copy, Debug, PartialEq, Eq)]
pub struct PageNumber(pub u64);

// An address, in bytes.
#[derive(Clone, Copy, Debug, PartialEq, Eq)]
pub struct VirtAddr(pub u64);

// Where an address lies in a region: at the first byte of a page, at another byte of one, or in none. (Three cases, so no Option.)
#[derive(Clone, Copy)]
pub enum PageAt {
    Start(PageNumber),
    Within(PageNumber),
    Outside,
}

// The one way from each to the other takes the region's start and pages one by one: it stands below the record, which has them.
impl VirtAddr {
    // The page of a region of `pages` pages from `start` on that holds this address.
    #[tactic(auto, unfolding(crate::specs::Place::page_at))]
    pub fn get_pfn(self, start: VirtAddr, pages: u64) -> PageAt
        ensures { result ≡ page_at start.0 pages self.0 }
    {
        if self.0 < start.0 {
            return PageAt::Outside;
        }
        let from = self.0 - start.0;
        let page = from / PAGE_SIZE;
        if pages <= page {
            return PageAt::Outside;
        }
        if from % PAGE_SIZE == 0 {
            PageAt::Start(PageNumber(page))
        } else {
            PageAt::Within(PageNumber(page))
        }
    }
}

impl PageNumber {
    // The address of this page in a region of `pages` pages from `start` on, if the region has it and 64 bits can write it.
    #[tactic(auto, unfolding(crate::specs::Place::address_at))]
    pub fn virt_addr(self, start: VirtAddr, pages: u64) -> Option<VirtAddr>
        ensures { result ≡ address_at start.0 pages self.0 }
    {
        if pages <= self.0 {
            return None;
        }
        let from = self.0.checked_mul(PAGE_SIZE)?;
        let address = start.0.checked_add(from)?;
        Some(VirtAddr(address))
    }
}
