//! What the book of an hour is.

ghost use Rattle.laws_of_books.specs.BookLaws.{BooksAreBooks, BooksAreTheirLines, BooksBeginEmpty, HoursHaveTheirBooks};
ghost use Rattle.laws_of_books.specs.BookLaws.{NoMoreRestThanAreOpen, OpenOrdersAreFound, RunsKeepBooks};

/// The book of an hour has seven parts, and its line of each part and side is that of the part's
/// contract.
pub fn books_are_their_lines()
    ensures { BooksAreTheirLines }
{}

/// In the book of an hour no more orders rest than orders and blocks are open under names of the
/// hour.
pub fn no_more_rest_than_are_open()
    ensures { NoMoreRestThanAreOpen }
{}

/// After events of which each fits those before it the book of an hour keeps what every book keeps,
/// where at most 4096 orders and blocks are open under names of the hour: its lines are strictly in
/// priority and of their sides, each record agrees with itself, and no number stands twice.
pub fn books_are_books()
    ensures { BooksAreBooks }
{}

/// So does the book of each hour after every run.
pub fn runs_keep_books()
    ensures { RunsKeepBooks }
{}

/// Before the first event no order rests in the book of an hour.
pub fn books_begin_empty()
    ensures { BooksBeginEmpty }
{}

/// The order that the book of an hour has for a number is the open one of that name, as it stands,
/// and none where no order of that name is open.
pub fn open_orders_are_found()
    ensures { OpenOrdersAreFound }
{}

/// The events of an hour alone have the same book of the hour as all events.
pub fn hours_have_their_books()
    ensures { HoursHaveTheirBooks }
{}
