// What the requests are, for people.
pub const HELP: &str = "\
words N                   lend N words, 0 to 8192, all Reserved; the record is the empty one then
setup START PAGES BOOT    set the region up in the lent words
alloc ORDER               a block of 2^ORDER pages
file                      a file page, counted once
slab ITEM                 a page of items of this size
free ADDR                 give a block back
get ADDR                  count a file page once more
put ADDR                  count it once less, and free it at 0
lookup ADDR               the size and the alignment of what lies there
report                    the blocks of orders 0 to 5, and the free blocks
print                     the same for people
lists                     the pages of each free list
audit                     whether record and words are sound
state                     the record, and a hash of the words
word I                    a lent word, in hex
poke I HEX                overwrite a lent word
field NAME I VALUE        overwrite nr, free or head of order I, or start, pages or boot, with I 0
encode TYPE A B           the word of a page's fields
decode HEX                what a word says of its page
order SIZE                the least order whose block holds SIZE bytes
help                      this list
";
