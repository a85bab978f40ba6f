//! What is planned on the desks of a row is dropped or settled.

ghost use Rattle.std.specs.Prelude.{◌≡◌, ◌<◌, [], Some, length, map, slice_get, slice_set};
ghost use Rattle.hour_desk.specs.Desk.{DeskState, carried, planning, with_nothing_planned};
ghost use Rattle.market_model.specs.declared.reply.Reply.TheVariants as replies;
ghost use Rattle.market_model.specs.History.{events_of};
ghost use Rattle.joint_plan.specs.Rows.{dropped, planning_all};

use crate::desks::Desks;
use market_model::{Refusal, Reply};

/// Drops what is planned on each desk. It takes no memory.
pub fn undo_all<D: Desks>(row: &mut D)
    ensures desks { D.desks row.new ≡ dropped (D.desks row.old) }
    ensures rest { D.rest row.new ≡ D.rest row.old }
{
    for i in 0..row.len() {
        undo_at(row, i);
    }
}

/// What is planned on each desk is settled. It takes no memory.
pub fn carry_all<D: Desks>(row: &mut D)
    ensures desks { D.desks row.new ≡ map carried (D.desks row.old) }
    ensures rest { D.rest row.new ≡ D.rest row.old }
{
    for i in 0..row.len() {
        carry_at(row, i);
    }
}

// Plans on each desk no event behind those that are settled.
fn plan_nothing_at_all<D: Desks>(row: &mut D)
    ensures desks { D.desks row.new ≡ map (λ desk. planning desk []) (D.desks row.old) }
    ensures rest { D.rest row.new ≡ D.rest row.old }
{
    for i in 0..row.len() {
        plan_nothing_at(row, i);
    }
}

/// The reply that refuses a command, with no event planned on any desk. It takes no memory.
pub fn refuse<D: Desks>(row: &mut D, refusal: Refusal) -> Reply
    ensures reply { result ≡ replies.Refused refusal }
    ensures desks { D.desks row.new ≡ planning_all (D.desks row.old) (events_of result) }
    ensures rest { D.rest row.new ≡ D.rest row.old }
{
    plan_nothing_at_all(row);
    Reply::Refused(refusal)
}

// Drops what is planned on the desk at a place.
fn undo_at<D: Desks>(row: &mut D, i: usize)
    requires { i < length (D.desks row.old) }
    ensures desks { (desk : DeskState) → slice_get (D.desks row.old) i ≡ Some desk → D.desks row.new ≡ slice_set (D.desks row.old) i (with_nothing_planned desk) }
    ensures rest { D.rest row.new ≡ D.rest row.old }
{
    row.desk_mut(i).undo();
}

// Settles what is planned on the desk at a place.
fn carry_at<D: Desks>(row: &mut D, i: usize)
    requires { i < length (D.desks row.old) }
    ensures desks { (desk : DeskState) → slice_get (D.desks row.old) i ≡ Some desk → D.desks row.new ≡ slice_set (D.desks row.old) i (carried desk) }
    ensures rest { D.rest row.new ≡ D.rest row.old }
{
    row.desk_mut(i).carry();
}

// Plans on the desk at a place no event behind those that are settled.
fn plan_nothing_at<D: Desks>(row: &mut D, i: usize)
    requires { i < length (D.desks row.old) }
    ensures desks { (desk : DeskState) → slice_get (D.desks row.old) i ≡ Some desk → D.desks row.new ≡ slice_set (D.desks row.old) i (planning desk []) }
    ensures rest { D.rest row.new ≡ D.rest row.old }
{
    row.desk_mut(i).plan_nothing();
}
