//! What the stack answers, as it is printed.
use books::BookFault;
use std::fmt;

/// What a call answered, shown as its value or as the number of the refusal.
#[derive(Clone, Copy, Debug)]
pub struct Answer<T>(pub Result<T, BookFault>);

impl<T: fmt::Display> fmt::Display for Answer<T> {
    fn fmt<W: fmt::Write>(&self, f: &mut fmt::Formatter<W>) -> fmt::Result {
        match &self.0 {
            Ok(value) => write!(f, "{value}"),
            Err(fault) => write!(f, "no {}", fault.number()),
        }
    }
}
