// The calls on a sound state, each by the table's checks and then the rule: what the public calls do once the audit has passed.
// For the crate `heap`, and for whatever audits once and then calls often. Below it stand `grant` and `release`. (That record and words are sound is
// asked in each contract and stands in no type: document 01 has the record by value and the words lent beside it.)
#![tactic(auto)]

ghost use Rattle.std.specs.Prelude.{ℕ, ◌≡◌, List, [], ◌∷◌};
ghost use Rattle.words.specs.Place.{page_at};
ghost use Rattle.sound_calls.specs.Answer.{ok, refusal, told};
ghost use Rattle.sound_calls.specs.Code.{start_page};

use region::{After, HeapMemoryRegion};
use words::place::{PageAt, VirtAddr};

pub mod files;
pub mod free;
pub mod grants;
pub mod lookup;

// Why a call is refused, with what each carries (R1 to R12).
#[derive(Clone, Copy, Debug, PartialEq, Eq)]
pub enum AllocError {
    BadCount,
    BadStart,
    TooManyBoot,
    Damaged,
    InvalidPageOrder(usize),
    OutOfMemory,
    InvalidHeapAddress(VirtAddr),
    BootPage(VirtAddr),
    InvalidPageType(VirtAddr),
    InvalidFilePage(VirtAddr),
    RefFull(VirtAddr),
    InvalidItem(u64),
}

// The layout of a granted block.
#[derive(Clone, Copy, Debug, PartialEq, Eq)]
pub struct SizeAlign {
    pub size: u64,
    pub align: u64,
}

// A call that is refused hands the record back as it was.
pub fn refuse<T>(region: HeapMemoryRegion, why: AllocError) -> After<Result<T, AllocError>>
    ensures { result ≡ record { region = region; answer = Err why } }
{
    After {
        region,
        answer: Err(why),
    }
}

// The page that an address starts.
fn page_of(region: HeapMemoryRegion, vaddr: VirtAddr) -> Result<usize, AllocError>
    ensures { result ≡ start_page vaddr (page_at region.start_virt.0 region.page_count vaddr.0) }
{
    match vaddr.get_pfn(region.start_virt, region.page_count as u64) {
        PageAt::Start(page) => Ok(page.0 as usize),
        PageAt::Within(_) | PageAt::Outside => Err(AllocError::InvalidHeapAddress(vaddr)),
    }
}

// An answer as numbers: 0 or the number of its refusal, and what it carries. (Numbers, since document 01, C and the shell know a refusal by its own.)
#[derive(Clone, Copy, Debug, PartialEq, Eq)]
pub struct Answer {
    pub number: u64,
    pub value: Option<u64>,
    pub second: Option<u64>,
}

impl Answer {
    ghost use Rattle.sound_calls.specs.Answer.{no};

    // A third value is ignored.
    fn new(number: u64, values: &[u64]) -> Answer
        ensures { result ≡ no number values.now }
    {
        Answer {
            number,
            value: values.first().copied(),
            second: values.get(1).copied(),
        }
    }
}

// A refusal's number and what it carries (R1 to R12).
impl From<AllocError> for Answer {
    ghost from_gives = { λ e answer. answer ≡ refusal e };

    fn from(e: AllocError) -> Answer {
        match e {
            AllocError::BadCount => Answer::new(1, &[]),
            AllocError::BadStart => Answer::new(2, &[]),
            AllocError::TooManyBoot => Answer::new(3, &[]),
            AllocError::Damaged => Answer::new(4, &[]),
            AllocError::InvalidPageOrder(order) => Answer::new(5, &[order as u64]),
            AllocError::OutOfMemory => Answer::new(6, &[]),
            AllocError::InvalidHeapAddress(address) => Answer::new(7, &[address.0]),
            AllocError::BootPage(address) => Answer::new(8, &[address.0]),
            AllocError::InvalidPageType(address) => Answer::new(9, &[address.0]),
            AllocError::InvalidFilePage(address) => Answer::new(10, &[address.0]),
            AllocError::RefFull(address) => Answer::new(11, &[address.0]),
            AllocError::InvalidItem(item) => Answer::new(12, &[item]),
        }
    }
}

// What a call carries that succeeds.
pub trait Carried {
    ghost values: { Self → List ℕ };

    fn carried(self) -> Answer
        ensures { result ≡ ok (values self) };
}

impl Carried for () {
    ghost values = { λ _. [] };

    fn carried(self) -> Answer {
        Answer::new(0, &[])
    }
}

impl Carried for VirtAddr {
    ghost values = { λ address. address.0 ∷ [] };

    fn carried(self) -> Answer {
        Answer::new(0, &[self.0])
    }
}

impl Carried for u64 {
    ghost values = { λ n. n ∷ [] };

    fn carried(self) -> Answer {
        Answer::new(0, &[self])
    }
}

impl Carried for SizeAlign {
    ghost values = { λ l. l.size ∷ l.align ∷ [] };

    fn carried(self) -> Answer {
        Answer::new(0, &[self.size, self.align])
    }
}

impl<T: Carried> From<Result<T, AllocError>> for Answer {
    ghost from_gives = { λ r answer. answer ≡ told T.values r };

    fn from(r: Result<T, AllocError>) -> Answer {
        match r {
            Ok(value) => value.carried(),
            Err(e) => Answer::from(e),
        }
    }
}
