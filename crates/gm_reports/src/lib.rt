//! The reports of the program's own commands: a text that is printed, and how the program ends
//! then. They are made of what a bench, a registry or images showed, and ask nothing.
//!
//! `report.rt` says what a report is; `specs/Reports.antt` says when one is done or refused.
//! `mirrors.rt` shows mirrors, `names.rt` lists components that are amiss, `tasting.rt` says what
//! images tell, with `passed_over.rt` for what beside them is none, and `wanted.rt` that something
//! isn't there that is named.
#![tactic(auto)]

mod json_line;
mod mirrors;
mod names;
mod passed_over;
mod report;
mod tasting;
mod wanted;

pub use json_line::as_line;
pub use mirrors::{list_report, status_report};
pub use names::audit_report;
pub use report::Report;
pub use tasting::taste_report;
pub use wanted::{WhyRefused, no_component, no_mirror, refused};
