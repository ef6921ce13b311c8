//! Lines of nodes, each below the one that it stands in.

use crate::quote::push_text;
use starlark_lexer::place::pos::Span;
use std::alloc::{AllocError, Global};
use std::fmt;
use std::fmt::Write;

/// The lines so far.
#[derive(Drop)]
pub(crate) struct Lines {
    text: String,
    /// The blanks before the next line.
    indent: String,
}

impl Lines {
    /// No lines.
    pub(crate) fn new(alloc: Global) -> Lines {
        Lines {
            text: String::new(alloc),
            indent: String::new(alloc),
        }
    }

    /// The text of all lines.
    pub(crate) fn into_text(self) -> String {
        let Lines { text, indent: _ } = self;
        text
    }

    /// Begins the line of a node that has no place.
    pub(crate) fn begin(&mut self, name: &str) -> Result<(), AllocError> {
        self.text.push_str(self.indent.as_str())?;
        self.text.push_str(name)
    }

    /// Begins the line of a node at a place.
    pub(crate) fn begin_at(&mut self, name: &str, span: Span) -> Result<(), AllocError> {
        self.begin(name)?;
        let (begin, end) = (span.begin().get(), span.end().get());
        write!(self.text, " {begin}..{end}")
    }

    /// Puts what a value prints into the line, behind a space.
    pub(crate) fn say<T: fmt::Display>(&mut self, value: &T) -> Result<(), AllocError> {
        write!(self.text, " {}", *value)
    }

    /// Puts an operator into the line, which prints with a space on each side.
    pub(crate) fn say_operator<T: fmt::Display>(&mut self, operator: &T) -> Result<(), AllocError> {
        write!(self.text, "{}", *operator)?;
        let _space = self.text.pop();
        Ok(())
    }

    /// Ends the line of a node, below which others stand.
    pub(crate) fn open(&mut self) -> Result<(), AllocError> {
        self.text.push('\n')?;
        self.indent.push_str("  ")
    }

    /// Ends the node.
    pub(crate) fn close(&mut self) {
        let _first = self.indent.pop();
        let _second = self.indent.pop();
    }

    /// The whole line of a node without a place that has nothing below it.
    pub(crate) fn word(&mut self, name: &str) -> Result<(), AllocError> {
        self.begin(name)?;
        self.text.push('\n')
    }

    /// The whole line of a node at a place that has nothing below it.
    pub(crate) fn leaf(&mut self, name: &str, span: Span) -> Result<(), AllocError> {
        self.begin_at(name, span)?;
        self.text.push('\n')
    }

    /// The whole line of a node that holds a name, or what prints as one.
    pub(crate) fn said<T: fmt::Display>(
        &mut self,
        name: &str,
        span: Span,
        value: &T,
    ) -> Result<(), AllocError> {
        self.begin_at(name, span)?;
        self.say(value)?;
        self.text.push('\n')
    }

    /// The whole line of a text in quotes.
    pub(crate) fn quoted(&mut self, span: Span, value: &str) -> Result<(), AllocError> {
        self.begin_at("Text", span)?;
        self.text.push(' ')?;
        push_text(&mut self.text, value)?;
        self.text.push('\n')
    }
}
