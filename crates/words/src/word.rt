// The word of a page: what one u64 says of its page, and back.
ghost use Rattle.std.specs.Prelude.{◌≡◌, true};
ghost use Rattle.words.specs.Word.{type_of, row, next_page_of, next_field, has_field, decode_of, in_table, word_of, encode_of, mem_of};

// No page: what the record and a FreeInfo write for none. (A number and no Option: document 01 gives the record this number, and C reads both
// as numbers.)
pub const NO_PAGE: usize = 0xffff_ffff_ffff_ffff;

// Orders are below this.
pub const MAX_ORDER: usize = 6;

// The types of pages, by their numbers in a word.
#[derive(Clone, Copy, Debug, PartialEq, Eq)]
pub enum PageType {
    Free = 0,
    Allocated = 1,
    Slab = 2,
    Compound = 3,
    File = 4,
    Reserved = 15,
}

// A number that is no type's.
#[derive(Clone, Copy, Debug, PartialEq, Eq)]
pub struct UnknownType(pub u64);

impl TryFrom<u64> for PageType {
    type Error = UnknownType;

    ghost try_from_gives = { λ number t. t ≡ type_of number };

    #[tactic(auto, unfolding(crate::specs::Word::type_of))]
    fn try_from(number: u64) -> Result<PageType, UnknownType> {
        match number {
            0 => Ok(PageType::Free),
            1 => Ok(PageType::Allocated),
            2 => Ok(PageType::Slab),
            3 => Ok(PageType::Compound),
            4 => Ok(PageType::File),
            15 => Ok(PageType::Reserved),
            _ => Err(UnknownType(number)),
        }
    }
}

#[derive(Clone, Copy)]
pub struct FreeInfo {
    pub next_page: usize,
    pub order: usize,
}

#[derive(Clone, Copy)]
pub struct AllocatedInfo {
    pub order: usize,
}

#[derive(Clone, Copy)]
pub struct SlabPageInfo {
    pub item_size: u64,
}

#[derive(Clone, Copy)]
pub struct CompoundInfo {
    pub order: usize,
}

#[derive(Clone, Copy)]
pub struct FileInfo {
    pub ref_count: u64,
}

#[derive(Clone, Copy)]
pub struct ReservedInfo;

// What a page is. The fields are raw: not every value of them has a word.
#[derive(Clone, Copy)]
pub enum PageInfo {
    Free(FreeInfo),
    Allocated(AllocatedInfo),
    Slab(SlabPageInfo),
    Compound(CompoundInfo),
    File(FileInfo),
    Reserved(ReservedInfo),
}

#[derive(Clone, Copy)]
pub struct PageStorageType(pub u64);

impl PageStorageType {
    pub const TYPE_SHIFT: u64 = 4;

    pub const NEXT_SHIFT: u64 = 12;

    pub const SLAB_MASK: u64 = 65535;

    // What follows from these: the numbers of types, order fields, items and counts, and the next field that means none.
    const TYPES: u64 = 1 << Self::TYPE_SHIFT;

    const ORDERS: u64 = 1 << (Self::NEXT_SHIFT - Self::TYPE_SHIFT);

    const ITEMS: u64 = Self::SLAB_MASK + 1;

    const COUNTS: u64 = 1 << (64 - Self::TYPE_SHIFT);

    const NO_NEXT: u64 = 0xffff_ffff_ffff_ffff >> Self::NEXT_SHIFT;

    // What a word says. A word that does not fit the table is refused: by its type, then its order, then its spare bits. (Associated functions, as
    // document 01 wants `decode`, and no TryFrom: the plain "no" has no error to give.)
    #[tactic(auto, unfolding(crate::specs::Word::decode_of, crate::specs::Word::type_of))]
    pub fn decode(word: PageStorageType) -> Option<PageInfo>
        ensures { result ≡ decode_of word.0 }
    {
        let page_type = PageType::try_from(word.0 % Self::TYPES).ok()?;
        let rest = word.0 / Self::TYPES;
        let order = (rest % Self::ORDERS) as usize;
        let next = rest / Self::ORDERS;
        match page_type {
            PageType::Free => {
                let next_page = decode_next(next);
                row(PageInfo::Free(FreeInfo { next_page, order }), order, 0)
            }
            PageType::Allocated => row(PageInfo::Allocated(AllocatedInfo { order }), order, next),
            PageType::Slab => {
                let item_size = rest % Self::ITEMS;
                let spare = rest / Self::ITEMS;
                row(PageInfo::Slab(SlabPageInfo { item_size }), 0, spare)
            }
            PageType::Compound => row(PageInfo::Compound(CompoundInfo { order }), order, next),
            PageType::File => row(PageInfo::File(FileInfo { ref_count: rest }), 0, 0),
            PageType::Reserved => row(PageInfo::Reserved(ReservedInfo), 0, rest),
        }
    }

    // The word of raw fields; "no" exactly when no word has them.
    #[tactic(auto, unfolding(crate::specs::Word::encode_of))]
    pub fn encode(info: PageInfo) -> Option<PageStorageType>
        ensures { result ≡ encode_of info }
    {
        if in_table(info) {
            Some(PageStorageType(bits(info)))
        } else {
            None
        }
    }

    // The word of fields that the caller knows to have one; of any others the word of a Reserved page. (No From: fields that have no word would be
    // given one unseen.)
    #[tactic(auto, unfolding(crate::specs::Word::mem_of))]
    pub fn to_mem(info: PageInfo) -> PageStorageType
        ensures { result.0 ≡ mem_of info }
    {
        if in_table(info) {
            PageStorageType(bits(info))
        } else {
            PageStorageType(bits(PageInfo::Reserved(ReservedInfo)))
        }
    }
}

// The answer of a row of the table: its order is refused first, then its spare bits.
#[tactic(auto, unfolding(crate::specs::Word::row))]
fn row(info: PageInfo, order: usize, spare: u64) -> Option<PageInfo>
    ensures { result ≡ row info order spare }
{
    if order < MAX_ORDER && spare == 0 {
        Some(info)
    } else {
        None
    }
}

// The page that a next field names.
fn decode_next(field: u64) -> usize
    ensures { result ≡ next_page_of field }
{
    if field == PageStorageType::NO_NEXT {
        NO_PAGE
    } else {
        field as usize
    }
}

// The next field that names a page.
fn encode_next(page: usize) -> u64
    ensures { result ≡ next_field page }
{
    if page == NO_PAGE {
        PageStorageType::NO_NEXT
    } else {
        page as u64
    }
}

// Whether a next field can name the page. It has 52 bits, and all of them set mean NO_PAGE, so it can name NO_PAGE and every page below that.
fn has_field(page: usize) -> bool
    ensures { result ≡ has_field page }
{
    page == NO_PAGE || (page as u64) < PageStorageType::NO_NEXT
}

// Whether some word has these fields.
fn in_table(info: PageInfo) -> bool
    ensures { result ≡ in_table info }
{
    match info {
        PageInfo::Free(fi) => fi.order < MAX_ORDER && has_field(fi.next_page),
        PageInfo::Allocated(ai) => ai.order < MAX_ORDER,
        PageInfo::Slab(si) => si.item_size < PageStorageType::ITEMS,
        PageInfo::Compound(ci) => ci.order < MAX_ORDER,
        PageInfo::File(fi) => fi.ref_count < PageStorageType::COUNTS,
        PageInfo::Reserved(_) => true,
    }
}

// The word of fields that have one: the type's number, and above it the rest.
fn bits(info: PageInfo) -> u64
    requires { in_table info ≡ true }
    ensures { result ≡ word_of info }
{
    let (page_type, rest) = match info {
        PageInfo::Free(fi) => {
            let next = encode_next(fi.next_page) * PageStorageType::ORDERS;
            (PageType::Free, next + fi.order as u64)
        }
        PageInfo::Allocated(ai) => (PageType::Allocated, ai.order as u64),
        PageInfo::Slab(si) => (PageType::Slab, si.item_size),
        PageInfo::Compound(ci) => (PageType::Compound, ci.order as u64),
        PageInfo::File(fi) => (PageType::File, fi.ref_count),
        PageInfo::Reserved(_) => (PageType::Reserved, 0),
    };
    rest * PageStorageType::TYPES + page_type as u64
}
