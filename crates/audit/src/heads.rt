// What a page heads, by its word.
ghost use Rattle.std.specs.Prelude.{◌≡◌, OnSome, unwrap_or};
ghost use Rattle.pages.specs.Meaning.{no_order, head_order, free_order};
ghost use Rattle.audit.specs.Survey.{headed, freed};

use pages::good_item;
use words::word::PageInfo;

// The order of the block that a page heads, if it heads one.
pub fn head_order(said: Option<PageInfo>) -> Option<usize>
    ensures heads { result ≡ headed said }
    ensures order { unwrap_or result no_order ≡ head_order said }
{
    match said? {
        PageInfo::Free(fi) => Some(fi.order),
        PageInfo::Allocated(ai) => Some(ai.order),
        PageInfo::Slab(si) if good_item(si.item_size) => Some(0),
        PageInfo::File(fi) if 1 <= fi.ref_count => Some(0),
        _ => None,
    }
}

// The order of the free block that a page heads, if it heads one.
pub fn free_order(said: Option<PageInfo>) -> Option<usize>
    ensures heads { result ≡ freed said }
    ensures order { unwrap_or result no_order ≡ free_order said }
    ensures its_head { OnSome result (head_order said ≡ free_order said) }
{
    match said {
        Some(PageInfo::Free(fi)) => Some(fi.order),
        _ => None,
    }
}
