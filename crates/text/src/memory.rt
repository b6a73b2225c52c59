// The memory report as seven lines.
use std::fmt;

// The blocks and the free blocks of each order. (Two arrays by order, as the record has them: document 01.)
#[derive(Clone, Copy)]
pub struct Memory {
    pub total: [usize; 6],
    pub free: [usize; 6],
}

impl fmt::Display for Memory {
    fn fmt<W: fmt::Write>(&self, f: &mut fmt::Formatter<W>) -> fmt::Result {
        for (order, (total, free)) in self.total.iter().zip(&self.free).enumerate() {
            writeln!(
                f,
                "Order-0{order}: total pages: {total:5} free pages: {free:5}"
            )?;
        }
        let total = kib(&self.total);
        let free = kib(&self.free);
        writeln!(f, "Total memory: {total}KiB free memory: {free}KiB")
    }
}

// The memory of so many blocks of each order, 4 KiB to a page. No sound heap has enough of it for the sums to wrap.
fn kib(blocks: &[usize]) -> usize {
    let mut pages: usize = 0;
    for count in blocks.iter().rev() {
        pages = pages.wrapping_mul(2).wrapping_add(*count);
    }
    pages.wrapping_mul(4)
}
