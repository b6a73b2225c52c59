// The record's fields by name, to try damage.
ghost use Rattle.std.specs.Prelude.{◌≡◌, List, ℕ, ◌<◌};
ghost use Rattle.shell.specs.Request.{says, has_field, with_field, written};

use answers::lines::bad;
use parse::request::Field;
use region::HeapMemoryRegion;
use text::answer::{Line, Word};
use words::place::VirtAddr;
use words::word::MAX_ORDER;

// Overwrites a field: one of an array, where `i` is an order, or one that stands alone, where it is 0.
pub fn write_field(region: &mut HeapMemoryRegion, field: Field, i: usize, value: u64) -> Line
    ensures { (ws : List ℕ) → says region.new ws result ≡ written region.old ws field i value }
{
    if has_field(field, i) {
        set_field(region, field, i, value);
        Line::new(Word::Ok, &[])
    } else {
        bad()
    }
}

fn has_field(field: Field, i: usize) -> bool
    ensures { result ≡ has_field field i }
{
    match field {
        Field::Nr | Field::Free | Field::Head => i < MAX_ORDER,
        Field::Start | Field::Pages | Field::Boot => i == 0,
    }
}

// (An order below 6 is asked, as in `pages`; a field that stands alone has 0.)
fn set_field(region: &mut HeapMemoryRegion, field: Field, i: usize, value: u64)
    requires { i < 6 }
    ensures { region.new ≡ with_field region.old field i value }
{
    match field {
        Field::Nr => region.nr_pages[i] = value as usize,
        Field::Free => region.free_pages[i] = value as usize,
        Field::Head => region.next_page[i] = value as usize,
        Field::Start => region.start_virt = VirtAddr(value),
        Field::Pages => region.page_count = value as usize,
        Field::Boot => region.allocated = value as usize,
    }
}
