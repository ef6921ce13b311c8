//! The outline of all parts, item by item.

ghost use Rattle.std.specs.Prelude.{◌≡◌, ◌≤◌, length};
ghost use Rattle.std.specs.List.{All};
ghost use Rattle.starlark_parts.specs.Held.{IsAbove, all_feeds, outline_from};

use crate::part::Part;
use crate::word::OutlineItem;
use std::marker::Model;

/// The items of the outline of all parts that are left.
#[derive(Drop)]
pub struct Items<'a> {
    // those of a part that has begun
    items: &'a [OutlineItem],
    // the line feeds before it
    line: usize,
    // the parts behind it
    parts: &'a [Part],
    // the line feeds before them
    behind: usize,
}

impl<'a> Model for Items<'a> {
    ghost use Rattle.std.specs.Prelude.{List};
    ghost use Rattle.starlark_parts.specs.declared.word.OutlineItem.{OutlineItem};

    ghost Value = { List OutlineItem };

    ghost use Rattle.starlark_parts.specs.Left.{items_left, AreFew};

    ghost view = { items_left };

    ghost invariant = { AreFew };
}

impl<'a> Items<'a> {
    // all of these parts
    pub(crate) fn of(parts: &'a [Part]) -> Items<'a>
        requires above { All IsAbove parts.now }
        requires lines { all_feeds parts.now ≤ 4294967295 }
        ensures { result ≡ outline_from 0 parts.now }
    {
        Items {
            items: &[],
            line: 0,
            parts,
            behind: 0,
        }
    }

    /// How many are left.
    pub fn len(&self) -> u128
        ensures { result ≡ length self.now }
    {
        let mut count = self.items.len() as u128;
        let parts = self.parts;
        for part in parts {
            count += part.items().len() as u128;
        }
        count
    }
}

impl<'a> Iterator for Items<'a> {
    ghost use Rattle.std.specs.Iterator.{YieldsFirst, item_count};

    type Item = OutlineItem;

    ghost next_gives = { YieldsFirst (λ s. s) };

    ghost remaining = { item_count (λ s. s) };

    fn next(&mut self) -> Option<OutlineItem> {
        while self.items.is_empty() {
            let (part, parts) = self.parts.split_first()?;
            self.items = part.items();
            self.line = self.behind;
            self.parts = parts;
            self.behind += part.feeds();
        }
        let (first, items) = self.items.split_first()?;
        self.items = items;
        Some(first.below(self.line))
    }
}
