//! The layout of a day file: its kinds of record, what each record holds, and its refusals.
#![tactic(auto)]

pub mod fault;
pub mod kind;
pub mod record;

pub use fault::{ReadFault, WriteFault};
pub use kind::{Kind, NoKind};
pub use record::Record;
