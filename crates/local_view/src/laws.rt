//! Laws of views: theorems about the definitions, the contracts of functions that do nothing.

ghost use Rattle.local_view.specs.Certified.{CertifiedRowsAreViews};
ghost use Rattle.local_view.specs.Moved.{ReplacedBehindCutsStand};
ghost use Rattle.local_view.specs.Whole.{WholeLinesAreViews};

/// Where a flow and a cut of each zone certify how many lots each zone of a line gives, the view of the
/// certificate's zone is the rows of the line in which the orders of each zone give so many, one after the
/// other.
pub fn certified_rows_are_views()
    ensures { CertifiedRowsAreViews }
{}

/// Where orders of a line are replaced by others, and the zones of all of these have their cuts before the
/// first of them, a certificate of the line stands for the new line too, with its cuts moved along, and its
/// rows are the same.
pub fn replaced_orders_behind_cuts_change_nothing()
    ensures { ReplacedBehindCutsStand }
{}

/// Where a flow plan over a line gives all that its orders show, the view of the plan's zone is the line
/// itself: a row for each order, with all the lots that it shows.
pub fn whole_lines_are_views()
    ensures { WholeLinesAreViews }
{}
