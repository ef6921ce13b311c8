//! A list of parts, each of which is in the language alone.

ghost use Rattle.std.specs.Prelude.{◌≡◌, ◌<◌, ◌≤◌, [], IfOk, MatchOption, get_or, length, string_bytes};
ghost use Rattle.starlark_parts.specs.Edits.{Answers};
ghost use Rattle.starlark_parts.specs.Kept.{inserts, joined, moves, removes, replaces};
ghost use Rattle.starlark_parts.specs.Left.{statements_left};
ghost use Rattle.starlark_parts.specs.Outlines.{AreAllStatements, AreTops, IsOutline, ShowOutline};
ghost use Rattle.starlark_parts.specs.Spent.{Spends, nothing_read};

use crate::fault::PartFault;
use crate::items::Items;
use crate::laws::{joined_outline, joined_statements};
use crate::list;
use crate::part::{Part, read_outline, read_part};
use crate::statements::Statements;
use crate::word::OutlineItem;
use starlark_lexer::dialect::Dialect;
use starlark_parser::cost::Cost;
use std::alloc::{AllocError, Global};
use std::marker::Model;

/// Texts in a row, each of which is closed and in the language alone. Joined they have at most so many bytes as the limit
/// says. See docs/LANGUAGE.md, Parts.
#[derive(Drop)]
pub struct Parts {
    alloc: Global,
    dialect: Dialect,
    limit: u32,
    parts: Vec<Part>,
    // how many bytes the joined text has
    size: u64,
    // what the reading of the last edit took
    cost: Cost,
}

impl Model for Parts {
    ghost use Rattle.starlark_parts.specs.Kept.{Kept};

    ghost Value = { Kept };

    ghost use Rattle.starlark_parts.specs.Holding.{IsHeld, kept};

    ghost view = { kept };

    ghost invariant = { IsHeld };
}

impl Parts {
    /// An empty list, whose parts are read in that dialect. Joined they may have at most `u32::MAX` bytes. It takes no memory.
    pub fn new(alloc: Global, dialect: &Dialect) -> Parts
        ensures texts { result.texts ≡ [] }
        ensures limit { result.limit ≡ 4294967295 }
        ensures dialect { result.dialect ≡ dialect.now }
        ensures cost { result.cost ≡ nothing_read }
    {
        Parts::with_limit(alloc, dialect, u32::MAX)
    }

    /// The same where joined they may have at most `limit` bytes.
    pub fn with_limit(alloc: Global, dialect: &Dialect, limit: u32) -> Parts
        ensures texts { result.texts ≡ [] }
        ensures limit { result.limit ≡ limit }
        ensures dialect { result.dialect ≡ dialect.now }
        ensures cost { result.cost ≡ nothing_read }
    {
        Parts {
            alloc,
            dialect: *dialect,
            limit,
            parts: Vec::new(alloc),
            size: 0,
            cost: Cost::NONE,
        }
    }

    /// How many parts there are.
    pub fn len(&self) -> usize
        ensures { result ≡ length self.now.texts }
    {
        self.parts.len()
    }

    /// The text of the part at that index, if there is one.
    pub fn part(&self, index: usize) -> Option<&str>
        ensures { MatchOption result (length self.now.texts ≤ index) (λ text. (index < length self.now.texts) × (text.now ≡ get_or self.now.texts index [])) }
    {
        match self.parts.get(index) {
            Some(part) => Some(part.text()),
            None => None,
        }
    }

    /// Puts a part with these bytes before the one at that index, or behind the last where the index is `len`. The text
    /// is read alone. An edit that is refused leaves all parts as they were.
    pub fn insert(&mut self, index: usize, bytes: &[u8]) -> Result<(), PartFault>
        ensures edit { Answers self.old (inserts index bytes.now) result self.new.texts }
        ensures limit { self.new.limit ≡ self.old.limit }
        ensures dialect { self.new.dialect ≡ self.old.dialect }
        ensures cost { Spends self.old.dialect (inserts index bytes.now) result self.new.cost }
    {
        self.cost = Cost::NONE;
        if index > self.parts.len() {
            return Err(PartFault::Index);
        }
        let room = self.limit as u64 - self.size;
        let part = read_part(self.alloc, &self.dialect, bytes, room, &mut self.cost)?;
        list::put(&mut self.parts, index, part)?;
        self.size += bytes.len() as u64;
        Ok(())
    }

    /// Puts a part with these bytes in the place of the one at that index, which is below `len`. The text is read alone,
    /// before the other one goes. An edit that is refused leaves all parts as they were.
    pub fn replace(&mut self, index: usize, bytes: &[u8]) -> Result<(), PartFault>
        ensures edit { Answers self.old (replaces index bytes.now) result self.new.texts }
        ensures limit { self.new.limit ≡ self.old.limit }
        ensures dialect { self.new.dialect ≡ self.old.dialect }
        ensures cost { Spends self.old.dialect (replaces index bytes.now) result self.new.cost }
    {
        self.cost = Cost::NONE;
        if index >= self.parts.len() {
            return Err(PartFault::Index);
        }
        let others = self.size - self.parts[index].text().len() as u64;
        let room = self.limit as u64 - others;
        let part = read_part(self.alloc, &self.dialect, bytes, room, &mut self.cost)?;
        list::exchange(&mut self.parts, index, part);
        self.size = others + bytes.len() as u64;
        Ok(())
    }

    /// Leaves the part at that index out, which is below `len`. It takes no memory.
    pub fn remove(&mut self, index: usize) -> Result<(), PartFault>
        ensures edit { Answers self.old (removes index) result self.new.texts }
        ensures limit { self.new.limit ≡ self.old.limit }
        ensures dialect { self.new.dialect ≡ self.old.dialect }
        ensures cost { Spends self.old.dialect (removes index) result self.new.cost }
    {
        self.cost = Cost::NONE;
        if index >= self.parts.len() {
            return Err(PartFault::Index);
        }
        self.size -= self.parts[index].text().len() as u64;
        list::leave_out(&mut self.parts, index);
        Ok(())
    }

    /// Takes the part at one index out and puts it at another one of what is left. Both are below `len`. It takes no
    /// memory.
    pub fn move_part(&mut self, from: usize, to: usize) -> Result<(), PartFault>
        ensures edit { Answers self.old (moves from to) result self.new.texts }
        ensures limit { self.new.limit ≡ self.old.limit }
        ensures dialect { self.new.dialect ≡ self.old.dialect }
        ensures cost { Spends self.old.dialect (moves from to) result self.new.cost }
    {
        self.cost = Cost::NONE;
        if from >= self.parts.len() {
            return Err(PartFault::Index);
        }
        if to >= self.parts.len() {
            return Err(PartFault::Index);
        }
        list::move_entry(&mut self.parts, from, to);
        Ok(())
    }

    /// What the reading of the last edit took: nothing in a new list, behind `remove` and `move_part`, and behind an edit
    /// that was refused as `Index`, `Utf8` or `Long`. Where memory ran out it is no more than such a text takes.
    pub fn last_cost(&self) -> Cost
        ensures { result ≡ self.now.cost }
    {
        self.cost
    }

    /// The statements at the top of all parts, in order, with their beginnings in the joined text. They are those of each
    /// part's own tree, with the places of that tree; but for places they are those of the joined text's. No memory is
    /// taken, here and on the way.
    pub fn statements(&self) -> Statements<'_>
        ensures parts { AreAllStatements self.now.dialect 0 self.now.texts (statements_left result) }
        ensures joined { ShowOutline self.now.dialect (joined self.now.texts) (statements_left result) }
        ensures tops { AreTops self.now.dialect (joined self.now.texts) (statements_left result) }
    {
        joined_outline();
        joined_statements();
        Statements::of(self.parts.as_slice())
    }

    /// The outline of the joined text, item by item: what one gets who reads it from scratch. No memory is taken, here and
    /// on the way.
    pub fn items(&self) -> Items<'_>
        ensures { IsOutline self.now.dialect (joined self.now.texts) result }
    {
        joined_outline();
        Items::of(self.parts.as_slice())
    }

    /// The outline of the joined text. Want of memory is the only refusal.
    pub fn outline(&self) -> Result<Vec<OutlineItem>, AllocError>
        ensures { IfOk result (λ v. IsOutline self.now.dialect (joined self.now.texts) v.items) }
    {
        self.items().collect(self.alloc)
    }

    /// The outline of the joined text, by reading that text as one: what `outline` gives. Want of memory is the only
    /// refusal.
    pub fn from_scratch(&self) -> Result<Vec<OutlineItem>, AllocError>
        ensures { IfOk result (λ v. IsOutline self.now.dialect (joined self.now.texts) v.items) }
    {
        joined_outline();
        let text = self.text()?;
        read_outline(self.alloc, &self.dialect, text)
    }

    /// The joined text. Want of memory is the only refusal.
    pub fn text(&self) -> Result<String, AllocError>
        ensures { IfOk result (λ text. string_bytes text ≡ joined self.now.texts) }
    {
        let mut text = String::with_capacity(self.alloc, self.size as usize)?;
        for part in &self.parts {
            text.push_str(part.text())?;
        }
        Ok(text)
    }

    /// Lets all parts go, as a drop does. Where a crate calls this, it need not prove how (docs/USING.md).
    pub fn release(self) {}
}
