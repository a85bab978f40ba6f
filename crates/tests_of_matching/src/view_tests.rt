//! The views of an hour in which no order rests.

use kept_hour::KeptHour;
use local_view::LocalViews;
use order_kinds::Side;
use std::test::Fail;
use tests_of_shared_grids::diamond;

#[test]
fn views_of_an_empty_hour_have_no_rows(rt: HostRuntime) -> Result<(), Fail> {
    let grid = diamond(rt.alloc())?;
    let hour = KeptHour::new(rt.alloc(), 12, &grid)?;
    let mut views = LocalViews::new(rt.alloc(), grid.zones(), 7)?;
    views.refresh(&hour, &grid)?;
    assert_eq!(rt; views.made(), 7 * 2 * 4);
    views.adopt();
    assert!(rt; views.rows(0, Side::Sell, 3).is_empty());
    Ok(())
}
