//! The statements at the top of all parts.

ghost use Rattle.std.specs.Prelude.{◌≡◌, ◌≤◌};
ghost use Rattle.std.specs.List.{All, flat_map};
ghost use Rattle.starlark_parts.specs.Held.{IsAbove, all_feeds, outline_from, statements_of};
ghost use Rattle.starlark_parts.specs.Left.{tops_left};

use crate::items::Items;
use crate::part::Part;
use crate::top::TopLevel;
use starlark_ast::ast::AstStmt;
use starlark_place::resolved::ResolvedPos;

/// The statements of all parts that are left, without their beginnings.
#[derive(Drop)]
struct AllTops<'a> {
    // of the part that has begun
    part: TopLevel<'a>,
    // the parts behind it
    parts: &'a [Part],
}

impl<'a> Iterator for AllTops<'a> {
    ghost use Rattle.std.specs.Iterator.{YieldsFirstRef, item_count};
    ghost use Rattle.starlark_parts.specs.Left.{tops_left};

    type Item = &'a AstStmt;

    ghost next_gives = { YieldsFirstRef tops_left };

    ghost remaining = { item_count tops_left };

    fn next(&mut self) -> Option<&'a AstStmt> {
        loop {
            if let Some(statement) = self.part.next() {
                return Some(statement);
            }
            let (part, parts) = self.parts.split_first()?;
            self.part = part.statements();
            self.parts = parts;
        }
    }
}

/// The statements at the top of all parts that are left, each with the line and column at which it begins in the joined
/// text, both from 0.
#[derive(Drop)]
pub struct Statements<'a> {
    tops: AllTops<'a>,
    items: Items<'a>,
}

impl<'a> Statements<'a> {
    // those of these parts
    pub(crate) fn of(parts: &'a [Part]) -> Statements<'a>
        requires above { All IsAbove parts.now }
        requires lines { all_feeds parts.now ≤ 4294967295 }
        ensures tops { tops_left result.tops ≡ flat_map statements_of parts.now }
        ensures items { result.items ≡ outline_from 0 parts.now }
    {
        Statements {
            tops: AllTops {
                part: TopLevel::none(),
                parts,
            },
            items: Items::of(parts),
        }
    }
}

impl<'a> Iterator for Statements<'a> {
    ghost use Rattle.std.specs.Iterator.{YieldsFirstBy, item_count};
    ghost use Rattle.starlark_parts.specs.Left.{given, statements_left};

    type Item = (&'a AstStmt, ResolvedPos);

    ghost next_gives = { YieldsFirstBy given statements_left };

    ghost remaining = { item_count statements_left };

    fn next(&mut self) -> Option<(&'a AstStmt, ResolvedPos)> {
        let item = self.items.next()?;
        let statement = self.tops.next()?;
        Some((statement, item.begin))
    }
}
