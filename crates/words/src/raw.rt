// A page's raw fields as numbers: the type's number; then order, item size or count; then the next page. 0 where the type has no such field.
ghost use Rattle.std.specs.Prelude.{◌≡◌};
ghost use Rattle.words.specs.RawFields.{fields_of, encode_fields};

use crate::word::{
    AllocatedInfo, CompoundInfo, FileInfo, FreeInfo, PageInfo, PageStorageType, PageType,
    ReservedInfo, SlabPageInfo,
};

// (The type by its number: C and the shell have it so.)
#[derive(Clone, Copy, Debug, PartialEq, Eq)]
pub struct Fields {
    pub kind: u64,
    pub field: u64,
    pub next: u64,
}

impl From<PageInfo> for Fields {
    ghost from_gives = { λ info fields. fields ≡ fields_of info };

    fn from(info: PageInfo) -> Fields {
        let (page_type, field, next) = match info {
            PageInfo::Free(i) => (PageType::Free, i.order as u64, i.next_page as u64),
            PageInfo::Allocated(i) => (PageType::Allocated, i.order as u64, 0),
            PageInfo::Slab(i) => (PageType::Slab, i.item_size, 0),
            PageInfo::Compound(i) => (PageType::Compound, i.order as u64, 0),
            PageInfo::File(i) => (PageType::File, i.ref_count, 0),
            PageInfo::Reserved(_) => (PageType::Reserved, 0, 0),
        };
        Fields {
            kind: page_type as u64,
            field,
            next,
        }
    }
}

// The word of raw fields, by the type's number. A field that the type does not have must be 0. (Three numbers: C and the shell give them so.)
#[tactic(auto, unfolding(crate::specs::RawFields::encode_fields, crate::specs::Word::type_of))]
pub fn encode_fields(kind: u64, field: u64, next: u64) -> Option<PageStorageType>
    ensures { result ≡ encode_fields kind field next }
{
    let order = field as usize;
    let info = match PageType::try_from(kind).ok()? {
        PageType::Free => PageInfo::Free(FreeInfo {
            next_page: next as usize,
            order,
        }),
        _ if next != 0 => return None,
        PageType::Allocated => PageInfo::Allocated(AllocatedInfo { order }),
        PageType::Slab => PageInfo::Slab(SlabPageInfo { item_size: field }),
        PageType::Compound => PageInfo::Compound(CompoundInfo { order }),
        PageType::File => PageInfo::File(FileInfo { ref_count: field }),
        PageType::Reserved if field != 0 => return None,
        PageType::Reserved => PageInfo::Reserved(ReservedInfo),
    };
    PageStorageType::encode(info)
}
