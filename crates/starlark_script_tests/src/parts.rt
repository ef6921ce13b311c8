//! Parts: each public call, the refusals in their order, and what a reading takes. A list is let go by `release`, so that
//! the drops of trees are not proved once more.

use crate::check::{count, equal, holds};
use starlark_lexer::dialect::Dialect;
use starlark_lexer::lexer::Lexer;
use starlark_parts::fault::PartFault;
use starlark_parts::parts::Parts;
use starlark_parts::word::{OutlineItem, Word};
use starlark_place::codemap::{CodeMap, CodeMapId};
use std::alloc::{AllocError, Global};
use std::process::Abort;
use std::test::Fail;

/// The words and beginnings, counted from 0, of an outline.
type Shown = (Word, usize, usize);

fn shown(item: &OutlineItem) -> Shown {
    (item.word, item.begin.line, item.begin.column)
}

/// The outline, the same from scratch, its items and the statements are these.
fn is_outline(rt: &impl Abort, parts: &Parts, wanted: &[Shown]) -> Result<(), AllocError> {
    let outline = parts.outline()?;
    count(rt, outline.len(), wanted.len());
    holds(rt, parts.items().len() == wanted.len() as u128);
    let again = parts.from_scratch()?;
    count(rt, again.len(), wanted.len());
    for (item, same) in outline.iter().zip(&again) {
        holds(rt, *item == *same);
    }
    let mut items = parts.items();
    let mut statements = parts.statements();
    for (item, want) in outline.iter().zip(wanted) {
        equal(rt, shown(item), *want);
        holds(rt, items.next() == Some(*item));
        let Some((statement, begin)) = statements.next() else {
            panic!(rt; "a statement is missing")
        };
        holds(rt, Word::of(statement) == Some(item.word));
        equal(rt, begin, item.begin);
    }
    holds(rt, items.next().is_none());
    holds(rt, statements.next().is_none());
    Ok(())
}

fn edited(rt: &impl Abort, parts: &mut Parts) -> Result<(), Fail> {
    equal(rt, (parts.len(), parts.last_cost().asks), (0, 0));
    parts.insert(0, b"def f():\n  pass\n")?;
    parts.insert(1, b"f(1)\n")?;
    parts.insert(0, b"a = 2\n")?;
    is_outline(
        rt,
        parts,
        &[
            (Word::Assign, 0, 0),
            (Word::Def, 1, 0),
            (Word::Expression, 3, 0),
        ],
    )?;
    parts.replace(0, b"a = 2\n\n# c\n")?;
    equal(
        rt,
        parts.text()?.as_str(),
        "a = 2\n\n# c\ndef f():\n  pass\nf(1)\n",
    );
    is_outline(
        rt,
        parts,
        &[
            (Word::Assign, 0, 0),
            (Word::Def, 3, 0),
            (Word::Expression, 5, 0),
        ],
    )?;
    moved(rt, parts)
}

fn moved(rt: &impl Abort, parts: &mut Parts) -> Result<(), Fail> {
    parts.move_part(0, 2)?;
    is_outline(
        rt,
        parts,
        &[
            (Word::Def, 0, 0),
            (Word::Expression, 2, 0),
            (Word::Assign, 3, 0),
        ],
    )?;
    equal(rt, parts.part(1), Some("f(1)\n"));
    parts.remove(1)?;
    equal(rt, (parts.len(), parts.part(2)), (2, None));
    Ok(())
}

#[test]
fn edits(rt: HostRuntime) -> Result<(), Fail> {
    let mut parts = Parts::new(rt.alloc(), &Dialect::Standard);
    let done = edited(&rt, &mut parts);
    parts.release();
    done
}

/// What is wrong with these bytes at that index: each text breaks all that is looked at behind the reason, too.
static REFUSED: [(usize, &[u8], &str); 5] = [
    (2, b"1 = 2 \xff", "there is no part at that index"),
    (1, b"1 = 2 \xff", "the bytes are not UTF-8"),
    (1, b"1 = 2", "the joined text would be too long"),
    (1, b"1=2", "this may not be assigned to: part:1:1-2"),
    (1, b"y", "the text is open"),
];

fn refused(rt: &impl Abort, alloc: Global, parts: &mut Parts) -> Result<(), Fail> {
    parts.insert(0, b"x = 1\n")?;
    for (index, bytes, wanted) in &REFUSED {
        let Err(fault) = parts.insert(*index, bytes) else {
            return Err(Fail::from("it is taken"));
        };
        equal(rt, fault.to_string(alloc)?.as_str(), *wanted);
        equal(rt, parts.text()?.as_str(), "x = 1\n");
    }
    equal(
        rt,
        PartFault::Memory.to_string(alloc)?.as_str(),
        "out of memory",
    );
    holds(
        rt,
        matches!(parts.replace(1, b"y\n"), Err(PartFault::Index)),
    );
    holds(
        rt,
        matches!(parts.replace(0, b"y = [1, 2]\n"), Err(PartFault::Long)),
    );
    holds(rt, matches!(parts.remove(1), Err(PartFault::Index)));
    holds(rt, matches!(parts.move_part(0, 1), Err(PartFault::Index)));
    Ok(())
}

#[test]
fn refusals(rt: HostRuntime) -> Result<(), Fail> {
    let mut parts = Parts::with_limit(rt.alloc(), &Dialect::Standard, 10);
    let done = refused(&rt, rt.alloc(), &mut parts);
    parts.release();
    done
}

/// Nothing was read.
fn costs_nothing(rt: &impl Abort, parts: &Parts) {
    let cost = parts.last_cost();
    equal(rt, (cost.reads, cost.asks), (0, 0));
}

/// A text of so many bytes was read to its end, with so many asks.
fn costs(rt: &impl Abort, parts: &Parts, bytes: u32, asks: u64) {
    let cost = parts.last_cost();
    equal(rt, cost.asks, asks);
    holds(rt, bytes as u64 <= cost.reads);
    holds(rt, cost.reads <= 16 * (bytes as u64 + 1));
}

fn counted(rt: &impl Abort, parts: &mut Parts) -> Result<(), Fail> {
    costs_nothing(rt, parts);
    parts.insert(0, b"f(1)\n")?;
    costs(rt, parts, 5, 7);
    parts.insert(1, b"x = 1\n")?;
    costs(rt, parts, 6, 6);
    holds(
        rt,
        matches!(parts.replace(0, b"x = 1"), Err(PartFault::Open)),
    );
    costs(rt, parts, 5, 5);
    holds(
        rt,
        matches!(parts.replace(2, b"x = 1\n"), Err(PartFault::Index)),
    );
    costs_nothing(rt, parts);
    parts.replace(0, b"f(1)\n")?;
    holds(
        rt,
        matches!(parts.replace(0, b"\xff"), Err(PartFault::Utf8)),
    );
    costs_nothing(rt, parts);
    holds(
        rt,
        matches!(parts.replace(0, b"1=\n"), Err(PartFault::Parse(_, _))),
    );
    costs(rt, parts, 3, 3);
    parts.move_part(0, 1)?;
    costs_nothing(rt, parts);
    parts.insert(0, b"# c\n")?;
    costs(rt, parts, 4, 3);
    parts.remove(0)?;
    costs_nothing(rt, parts);
    Ok(())
}

/// How often the lexer is asked of a text, and how many looks that takes.
static COSTS: [(Dialect, &str, u64); 6] = [
    (
        Dialect::Standard,
        "def f(x):\n  return [x, 1.5, \"a\"] # c\n",
        21,
    ),
    // it is not closed
    (Dialect::Standard, "x = 1", 5),
    // a token that is refused, and a rule that is broken, before comments
    (Dialect::Standard, "x = ) # c\n", 3),
    (Dialect::Standard, "1 = 2 ) # c\n", 4),
    // what only other dialects have
    (Dialect::Extended, "if x: pass\n", 7),
    (Dialect::AllOptionsInternal, "f\"{x}\"\n", 8),
];

/// What an edit tells is what its text takes from the lexer, whether it is taken or refused.
#[test]
fn costs_of_a_text(rt: HostRuntime) -> Result<(), Fail> {
    for (dialect, text, asks) in &COSTS {
        let mut parts = Parts::new(rt.alloc(), dialect);
        holds(
            &rt,
            !matches!(parts.insert(0, text.as_bytes()), Err(PartFault::Memory)),
        );
        let cost = parts.last_cost();
        parts.release();
        let map = CodeMap::new(
            rt.alloc(),
            CodeMapId(1),
            String::from_str(rt.alloc(), "t")?,
            String::from_str(rt.alloc(), text)?,
        )?;
        let mut lexer = Lexer::new(rt.alloc(), text, dialect, map);
        for _ in 0..*asks {
            let _ = lexer.next();
        }
        equal(&rt, (cost.reads, cost.asks), (lexer.reads(), *asks));
    }
    Ok(())
}

#[test]
fn costs_of_edits(rt: HostRuntime) -> Result<(), Fail> {
    let mut parts = Parts::new(rt.alloc(), &Dialect::Standard);
    let done = counted(&rt, &mut parts);
    parts.release();
    done
}

/// Each word, and how it is written.
static WORDS: [(Word, &str); 8] = [
    (Word::Def, "def"),
    (Word::Load, "load"),
    (Word::Assign, "assign"),
    (Word::Modify, "modify"),
    (Word::If, "if"),
    (Word::For, "for"),
    (Word::Expression, "expression"),
    (Word::Pass, "pass"),
];

#[test]
fn words(rt: HostRuntime) -> Result<(), Fail> {
    for (word, wanted) in &WORDS {
        equal(&rt, word.to_string(rt.alloc())?.as_str(), *wanted);
    }
    Ok(())
}
