//! The answers of a table.
use base::{Exit, Items, Request};

/// The exit that a child ends with, by its request.
#[derive(Drop)]
pub struct Answer {
    pub request: Request,
    pub exit: Exit,
}

/// A table of answers.
pub type AnswerList = Items<Answer>;
