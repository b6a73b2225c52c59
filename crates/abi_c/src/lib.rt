// The calls of `abi` as C programs find them: one exported function for each, with the same name and the same promise. (The C interface: only a
// static library may export.)
// For monitors that link the static library; bindings/ has the header and the Rust module over it. Below it stands `abi`, which has what each does.
#![tactic(auto)]

ghost use Rattle.std.specs.Prelude.{◌≡◌, []};
ghost use Rattle.words.specs.Word.{decode_of};
ghost use Rattle.words.specs.Order.{order_of};
ghost use Rattle.words.specs.RawFields.{encode_fields};
ghost use Rattle.buddy.specs.Request.{for_block, for_file, for_slab, on, to_free, to_get, to_put};
ghost use Rattle.abi.specs.Promise.{left, empty_left, set_up_left, call_left, reported, lookup_answer, audit_answer, report_left};
ghost use Rattle.abi.specs.Word.{said_of, encoded_of};

use abi::answer::Exported;
use abi::word::Fields;

// Sets a region up on the lent words.
#[unsafe(no_mangle)]
pub extern "C" fn tingmudra_root_mem_init(
    numbers: &mut [u64],
    words: &mut [u64],
    start: u64,
    page_count: u64,
    allocated: u64,
) -> Exported
    ensures { left result numbers.new words.new ≡ set_up_left numbers.old words.old start page_count allocated }
{
    abi::requests::tingmudra_root_mem_init(numbers, words, start, page_count, allocated)
}

// Grants a block of 2^order pages.
#[unsafe(no_mangle)]
pub extern "C" fn tingmudra_allocate_pages(
    numbers: &mut [u64],
    words: &mut [u64],
    order: u64,
) -> Exported
    ensures { left result numbers.new words.new ≡ call_left numbers.old words.old (for_block order) }
{
    abi::requests::tingmudra_allocate_pages(numbers, words, order)
}

// Grants a file page, with count 1.
#[unsafe(no_mangle)]
pub extern "C" fn tingmudra_allocate_file_page(numbers: &mut [u64], words: &mut [u64]) -> Exported
    ensures { left result numbers.new words.new ≡ call_left numbers.old words.old for_file }
{
    abi::requests::tingmudra_allocate_file_page(numbers, words)
}

// Grants a slab page for items of a size.
#[unsafe(no_mangle)]
pub extern "C" fn tingmudra_allocate_slab_page(
    numbers: &mut [u64],
    words: &mut [u64],
    item_size: u64,
) -> Exported
    ensures { left result numbers.new words.new ≡ call_left numbers.old words.old (for_slab item_size) }
{
    abi::requests::tingmudra_allocate_slab_page(numbers, words, item_size)
}

// Frees the block at an address.
#[unsafe(no_mangle)]
pub extern "C" fn tingmudra_free_page(
    numbers: &mut [u64],
    words: &mut [u64],
    vaddr: u64,
) -> Exported
    ensures { left result numbers.new words.new ≡ call_left numbers.old words.old (on to_free vaddr) }
{
    abi::requests::tingmudra_free_page(numbers, words, vaddr)
}

// One more reference to a file page; the record stays as it is.
#[unsafe(no_mangle)]
pub extern "C" fn tingmudra_get_file_page(
    numbers: &[u64],
    words: &mut [u64],
    vaddr: u64,
) -> Exported
    ensures { left result numbers.now words.new ≡ call_left numbers.now words.old (on to_get vaddr) }
{
    abi::requests::tingmudra_get_file_page(numbers, words, vaddr)
}

// One reference less to a file page; at 0 the page is free.
#[unsafe(no_mangle)]
pub extern "C" fn tingmudra_put_file_page(
    numbers: &mut [u64],
    words: &mut [u64],
    vaddr: u64,
) -> Exported
    ensures { left result numbers.new words.new ≡ call_left numbers.old words.old (on to_put vaddr) }
{
    abi::requests::tingmudra_put_file_page(numbers, words, vaddr)
}

// The record of a region without pages.
#[unsafe(no_mangle)]
pub extern "C" fn tingmudra_empty_region(numbers: &mut [u64]) -> Exported
    ensures { left result numbers.new [] ≡ empty_left numbers.old }
{
    abi::requests::tingmudra_empty_region(numbers)
}

// Size and alignment of what the page of an address was granted as.
#[unsafe(no_mangle)]
pub extern "C" fn tingmudra_layout_from_ptr(numbers: &[u64], words: &[u64], vaddr: u64) -> Exported
    ensures { result ≡ lookup_answer numbers.now words.now vaddr }
{
    abi::reads::tingmudra_layout_from_ptr(numbers, words, vaddr)
}

// Whether record and words are sound.
#[unsafe(no_mangle)]
pub extern "C" fn tingmudra_audit(numbers: &[u64], words: &[u64]) -> Exported
    ensures { result ≡ audit_answer numbers.now words.now }
{
    abi::reads::tingmudra_audit(numbers, words)
}

// Blocks and free blocks of each order, written to `report`.
#[unsafe(no_mangle)]
pub extern "C" fn tingmudra_memory_info(
    numbers: &[u64],
    words: &[u64],
    report: &mut [u64],
) -> Exported
    ensures { reported result report.new ≡ report_left numbers.now words.now report.old }
{
    abi::reads::tingmudra_memory_info(numbers, words, report)
}

// What a page's word says.
#[unsafe(no_mangle)]
pub extern "C" fn tingmudra_decode(word: u64) -> Fields
    ensures { result ≡ said_of (decode_of word) }
{
    abi::word::tingmudra_decode(word)
}

// The word of raw fields, by the type's number.
#[unsafe(no_mangle)]
pub extern "C" fn tingmudra_encode(kind: u64, field: u64, next: u64) -> Exported
    ensures { result ≡ encoded_of (encode_fields kind field next) }
{
    abi::word::tingmudra_encode(kind, field, next)
}

// The least order whose block holds a size in bytes.
#[unsafe(no_mangle)]
pub extern "C" fn tingmudra_get_order(size: u64) -> u64
    ensures { result ≡ order_of size }
{
    abi::word::tingmudra_get_order(size)
}
