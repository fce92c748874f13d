//! The schedule that plays an order of sessions, and what a script with it does.
#![tactic(auto)]

mod laws;
mod runs;
mod scripts;

pub use laws::{
    schedules_begin_runs, schedules_change_no_run, schedules_decide, schedules_play_orders,
    shown_runs_come_again, shown_runs_fit, whole_runs_come_again,
};
pub use runs::{runs_of, schedule_of};
pub use scripts::{may_have_schedule, with_schedule};
