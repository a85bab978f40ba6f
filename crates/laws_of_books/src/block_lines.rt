//! What the book of the blocks of an hour is.

ghost use Rattle.laws_of_books.specs.BlockLaws.{BlockBooksAreBooks, BlockBooksAreTheirLines, BlockBooksBeginEmpty};
ghost use Rattle.laws_of_books.specs.BlockLaws.{HoursHaveTheirBlockBooks, NoMoreBlocksRestThanAreOpen, OpenBlocksAreFound, RunsKeepBlockBooks};

/// The line of each period and side in the book of its first hour is the market's, block by block.
pub fn block_books_are_their_lines()
    ensures { BlockBooksAreTheirLines }
{}

/// Before the first event no block rests in the book of an hour.
pub fn block_books_begin_empty()
    ensures { BlockBooksBeginEmpty }
{}

/// The block that the book of an hour has for a number is the open one of that name, as it stands, and
/// none where no block of that name is open.
pub fn open_blocks_are_found()
    ensures { OpenBlocksAreFound }
{}

/// The events of an hour alone have the same book of the hour as all events.
pub fn hours_have_their_block_books()
    ensures { HoursHaveTheirBlockBooks }
{}

/// In the book of an hour no more blocks rest than orders and blocks are open under names of the
/// hour.
pub fn no_more_blocks_rest_than_are_open()
    ensures { NoMoreBlocksRestThanAreOpen }
{}

/// After events of which each fits those before it the book of an hour keeps what every book keeps,
/// where at most 4096 orders and blocks are open under names of the hour: its blocks stand by ascending
/// number, no number twice, and there are no more than 4096.
pub fn block_books_are_books()
    ensures { BlockBooksAreBooks }
{}

/// So does the book of each hour after every run.
pub fn runs_keep_block_books()
    ensures { RunsKeepBlockBooks }
{}
