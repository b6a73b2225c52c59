// The answers of several numbers or lines, each made of the record and the words.
use crate::hash::fnv;
use crate::help::HELP;
use crate::lines::{of_answer, page_number};
use heap::reads::{audit, memory_info};
use heap::word::decode;
use region::HeapMemoryRegion;
use sound_calls::Answer;
use std::fmt::{self, Display, Write};
use std::iter::successors;
use text::answer::Line;
use text::memory::Memory;
use words::word::{NO_PAGE, PageInfo};

// Which text a request asks for.
#[derive(Clone, Copy, Debug, PartialEq, Eq)]
pub enum TextKind {
    Report,
    Print,
    Lists,
    State,
    Help,
}

// Writes what a request asks for.
pub fn write_text(
    out: &mut impl Write,
    kind: TextKind,
    region: HeapMemoryRegion,
    words: &[u64],
) -> fmt::Result {
    match kind {
        TextKind::Report => report(out, region, words),
        TextKind::Print => print(out, region, words),
        TextKind::Lists => lists(out, region, words),
        TextKind::State => state(out, region, words),
        TextKind::Help => out.write_str(HELP),
    }
}

// The report as twelve numbers. (Two functions, this and `print`: what they share is `memory`, and one for both would be no plainer.)
fn report(out: &mut impl Write, region: HeapMemoryRegion, words: &[u64]) -> fmt::Result {
    match memory(region, words) {
        Ok(memory) => {
            let total = memory.total;
            let free = memory.free;
            writeln!(out, "ok{}{}", Six(total), Six(free))
        }
        Err(refusal) => writeln!(out, "{refusal}"),
    }
}

// The report as the lines that people read.
fn print(out: &mut impl Write, region: HeapMemoryRegion, words: &[u64]) -> fmt::Result {
    match memory(region, words) {
        Ok(memory) => write!(out, "{memory}"),
        Err(refusal) => writeln!(out, "{refusal}"),
    }
}

// The blocks of each order, or the line of the refusal. (A copy of heap::Report, field by field: `text` stands on no crate of the heap.)
fn memory(region: HeapMemoryRegion, words: &[u64]) -> Result<Memory, Line> {
    let report = memory_info(region, words).map_err(|e| of_answer(Answer::from(e)))?;
    let total = report.total_pages;
    let free = report.free_pages;
    Ok(Memory { total, free })
}

// The record, and the hash of the words.
fn state(out: &mut impl Write, region: HeapMemoryRegion, words: &[u64]) -> fmt::Result {
    let start = region.start_virt;
    writeln!(
        out,
        "{} {} {} |{} |{} |{} | {:016x}",
        start.0,
        region.page_count,
        region.allocated,
        Six(region.nr_pages),
        Six(region.free_pages),
        Six(region.next_page.map(page_number)),
        fnv(words)
    )
}

// Six values, each after a blank.
#[derive(Drop)]
struct Six<T>([T; 6]);

impl<T: Display> Display for Six<T> {
    fn fmt<W: Write>(&self, f: &mut fmt::Formatter<W>) -> fmt::Result {
        for value in &self.0 {
            write!(f, " {value}")?;
        }
        Ok(())
    }
}

// The pages of each list, if all is sound.
fn lists(out: &mut impl Write, region: HeapMemoryRegion, words: &[u64]) -> fmt::Result {
    if let Err(e) = audit(region, words) {
        return writeln!(out, "{}", of_answer(Answer::from(e)));
    }
    for (order, (head, count)) in region.next_page.iter().zip(&region.free_pages).enumerate() {
        write!(out, "list {order}:")?;
        for page in successors(named(*head), |page| next_of(words, *page)).take(*count) {
            write!(out, " {page}")?;
        }
        writeln!(out)?;
    }
    Ok(())
}

// The page that a free page's word names.
fn next_of(words: &[u64], page: usize) -> Option<usize> {
    match decode(*words.get(page)?) {
        Some(PageInfo::Free(free)) => named(free.next_page),
        _ => None,
    }
}

// A page number, if it is not that of none.
fn named(page: usize) -> Option<usize> {
    Some(page).filter(|page| *page != NO_PAGE)
}
