// What each request does.
ghost use Rattle.std.specs.Prelude.{◌≡◌, List, ℕ};
ghost use Rattle.region.specs.declared.HeapMemoryRegion.{HeapMemoryRegion};
ghost use Rattle.shell.specs.Request.{did, says, lends, read, poked, acted};

use crate::MOST_WORDS;
use crate::record::write_field;
use crate::steps::{Reply, seen, told};
use answers::lines::{bad, number, of_decoded, of_encoded};
use answers::texts::TextKind;
use heap::reads::{audit, layout_from_ptr};
use heap::requests::{
    allocate_file_page, allocate_pages, allocate_slab_page, free_page, get_file_page, put_file_page,
};
use heap::start::{empty_region, root_mem_init};
use heap::word;
use parse::request::Request;
use region::HeapMemoryRegion;
use text::answer::{Line, Word};

// Does what a request asks for; without one, nothing. (The record is changed where it stands: copied to each step and back it costs more than what
// most lines ask for.)
#[tactic(auto, unfolding(crate::specs::Request::acted))]
pub fn act(region: &mut HeapMemoryRegion, words: &mut [u64], request: Option<Request>) -> Reply
    ensures { did region.new words.new result ≡ acted region.old words.old request }
{
    let Some(request) = request else {
        return Reply::Line(bad());
    };
    match request {
        Request::Words(n) => lend(region, n),
        Request::Setup { start, pages, boot } => {
            told(root_mem_init(start, pages, boot, words), region)
        }
        Request::Alloc(order) => told(allocate_pages(*region, words, order), region),
        Request::File => told(allocate_file_page(*region, words), region),
        Request::Slab(size) => told(allocate_slab_page(*region, words, size), region),
        Request::Free(at) => told(free_page(*region, words, at), region),
        Request::Get(at) => seen(get_file_page(*region, words, at)),
        Request::Put(at) => told(put_file_page(*region, words, at), region),
        Request::Lookup(at) => seen(layout_from_ptr(*region, words, at)),
        Request::Report => Reply::Text(TextKind::Report),
        Request::Audit => seen(audit(*region, words)),
        Request::Print => Reply::Text(TextKind::Print),
        Request::Lists => Reply::Text(TextKind::Lists),
        Request::State => Reply::Text(TextKind::State),
        Request::Word(i) => Reply::Line(word_at(words, i)),
        Request::Poke(i, w) => Reply::Line(poke(words, i, w)),
        Request::Field(field, i, value) => Reply::Line(write_field(region, field, i, value)),
        Request::Encode { kind, field, next } => {
            Reply::Line(of_encoded(word::encode_fields(kind, field, next)))
        }
        Request::Decode(w) => Reply::Line(of_decoded(word::decode(w))),
        Request::Order(size) => Reply::Line(number(word::get_order(size) as u64)),
        Request::Help => Reply::Text(TextKind::Help),
    }
}

// So many words, all Reserved, and the empty record.
fn lend(region: &mut HeapMemoryRegion, n: usize) -> Reply
    ensures { (ws : List ℕ) → did region.new ws result ≡ lends region.old ws n }
{
    if n <= MOST_WORDS {
        *region = empty_region();
        Reply::Lent(n)
    } else {
        Reply::Line(bad())
    }
}

fn word_at(words: &[u64], i: usize) -> Line
    ensures { result ≡ read words.now i }
{
    match words.get(i) {
        Some(w) => Line::new(Word::Hex(*w), &[]),
        None => Line::new(Word::Out, &[]),
    }
}

fn poke(words: &mut [u64], i: usize, w: u64) -> Line
    ensures { (r : HeapMemoryRegion) → says r words.new result ≡ poked r words.old i w }
{
    if i < words.len() {
        words[i] = w;
        Line::new(Word::Ok, &[])
    } else {
        Line::new(Word::Out, &[])
    }
}
