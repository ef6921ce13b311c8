//! The scripts of `cases/` in `starlark_outline`, each run whole by reads and writes of one byte each.

use crate::check::{equal, holds};
use crate::devices::{NEVER, Tight, run_short};
use starlark_script::{End, status};

/// Each script with its replies, its end and the status then. A comment names its file.
static CASES: [(&[u8], &[u8], End, u8); 40] = [
    // a_part_of_comments
    (
        b"insert 0 16\ndef f():\n  pass\ninsert 1 5\n\n# c\ninsert 2 5\nf(1)\noutline\n",
        b"ok\nok\nok\nstatements 2\n1:1 def\n5:1 expression\n",
        End::Whole,
        0,
    ),
    // another_word
    (b"insert 0 6\nx = 1\noutlin\n", b"ok\nbad\n", End::Bad, 2),
    // blocks_in_one_part
    (
        b"insert 0 38\ndef f():\n  if x:\n    pass\n\n\n  # c\ng()\noutline\n",
        b"ok\nstatements 2\n1:1 def\n7:1 expression\n",
        End::Whole,
        0,
    ),
    // blocks_over_parts
    (
        b"insert 0 26\ndef f():\n  if x:\n    pass\ninsert 1 8\n\n\n  # c\ninsert 2 4\ng()\noutline\n",
        b"ok\nok\nok\nstatements 2\n1:1 def\n7:1 expression\n",
        End::Whole,
        0,
    ),
    // bytes_in_a_tuple
    (
        b"insert 0 13\nx = 1, b\"hi\"\noutline\n",
        b"ok\nstatements 1\n1:1 assign\n",
        End::Whole,
        0,
    ),
    // columns_in_characters
    (
        b"insert 0 11\ns = \"\xc3\xa9\" )\n",
        b"refused part:1:9-10 syntax\n",
        End::Whole,
        0,
    ),
    // comment_behind_equal
    (
        b"insert 0 8\nx = # c\n",
        b"refused part:1:8-2:1 syntax\n",
        End::Whole,
        0,
    ),
    // comments
    (
        b"insert 0 5\n\n# c\ninsert 1 5\nf(1)\noutline\n",
        b"ok\nok\nstatements 1\n3:1 expression\n",
        End::Whole,
        0,
    ),
    // eleven_digits
    (b"insert 0 00000000006\nx = 1\n", b"bad\n", End::Bad, 2),
    // empty
    (b"", b"", End::Whole, 0),
    // empty_part
    (
        b"insert 0 0\ninsert 1 6\nx = 1\n",
        b"refused open\nrefused index\n",
        End::Whole,
        0,
    ),
    // escaped_end
    (
        b"insert 0 8\nx = 1 \\\ninsert 0 6\n# c \\\ninsert 0 9\nx = 1 \\\r\n",
        b"refused open\nrefused open\nrefused open\n",
        End::Whole,
        0,
    ),
    // invalid_target
    (
        b"insert 0 6\n1 = 2\n",
        b"refused part:1:1-2 rule\n",
        End::Whole,
        0,
    ),
    // leading_zeros
    (
        b"insert 0 0000000006\nx = 1\noutline\n",
        b"ok\nstatements 1\n1:1 assign\n",
        End::Whole,
        0,
    ),
    // lexer_faults
    (
        b"insert 0 3\n01\ninsert 0 6\nclass\ninsert 0 2\n$\n",
        b"refused part:1:1-3 lexer\nrefused part:1:1-6 lexer\nrefused part:1:1-2 lexer\n",
        End::Whole,
        0,
    ),
    // lines_in_brackets
    (
        b"insert 0 11\ny = [1,\n2]\ninsert 1 5\nf(1)\noutline\n",
        b"ok\nok\nstatements 2\n1:1 assign\n3:1 expression\n",
        End::Whole,
        0,
    ),
    // long_line
    (
        b"outline\nooooooooooooooooooooooooooooooooooooooooooooooooooooooooooooooooo\n",
        b"statements 0\nbad\n",
        End::Bad,
        2,
    ),
    // move_and_remove
    (
        b"insert 0 6\nx = 1\ninsert 1 5\nf(1)\nmove 0 1\noutline\nremove 0\noutline\n",
        b"ok\nok\nok\nstatements 2\n1:1 expression\n2:1 assign\nok\nstatements 1\n1:1 assign\n",
        End::Whole,
        0,
    ),
    // moved_beginnings
    (
        b"insert 0 12\ny = f(1,\n2)\ninsert 1 5\nf(1)\ninsert 0 6\na = 2\noutline\n",
        b"ok\nok\nok\nstatements 3\n1:1 assign\n2:1 assign\n4:1 expression\n",
        End::Whole,
        0,
    ),
    // no_line_feed
    (b"outline", b"bad\n", End::Bad, 2),
    // no_part_to_move
    (
        b"outline\nmove 0 0\noutline\n",
        b"statements 0\nrefused index\nstatements 0\n",
        End::Whole,
        0,
    ),
    // no_part_to_remove
    (
        b"insert 0 5\nx = 1insert 0 8\nx = 1 \\\nremove 0\noutlin\n",
        b"refused open\nrefused open\nrefused index\nbad\n",
        End::Bad,
        2,
    ),
    // no_part_to_replace
    (b"replace 0 1\n\n", b"refused index\n", End::Whole, 0),
    // no_such_index
    (
        b"insert 5 6\nx = 1\noutline\n",
        b"refused index\nstatements 0\n",
        End::Whole,
        0,
    ),
    // no_text
    (b"insert 0 2\n\xff\n", b"refused utf8\n", End::Whole, 0),
    // one_statement
    (
        b"insert 0 6\nx = 1\noutline\n",
        b"ok\nstatements 1\n1:1 assign\n",
        End::Whole,
        0,
    ),
    // open_bracket
    (
        b"insert 0 5\nf(1,\n",
        b"refused part:2:1 syntax\n",
        End::Whole,
        0,
    ),
    // open_part
    (
        b"insert 0 5\nx = 1outline\n",
        b"refused open\nstatements 0\n",
        End::Whole,
        0,
    ),
    // outline_of_nothing
    (b"outline\n", b"statements 0\n", End::Whole, 0),
    // refused_for_a_rule
    (
        b"insert 0 7\nx = 1,\ninsert 0 10\na, b += 1\ninsert 0 10\nf(a=1, 2)\ninsert 0 7\nf\"{x}\"\n",
        b"refused part:1:5-7 rule\nrefused part:1:1-5 rule\nrefused part:1:8-9 rule\nrefused part:1:1-7 rule\n",
        End::Whole,
        0,
    ),
    // refused_for_syntax
    (
        b"insert 0 11\n\n(unmatchedinsert 0 9\ndef f():\ninsert 0 11\nelse: pass\ninsert 0 12\nf(a=1, 2) )\ninsert 0 4\nf\"{x",
        b"refused part:2:11 syntax\nrefused part:2:1 syntax\nrefused part:1:1-5 syntax\nrefused part:1:11-12 syntax\nrefused part:1:5 syntax\n",
        End::Whole,
        0,
    ),
    // refused_replace
    (
        b"insert 0 6\nx = 1\nreplace 0 3\n1=\noutline\n",
        b"ok\nrefused part:1:3-2:1 syntax\nstatements 1\n1:1 assign\n",
        End::Whole,
        0,
    ),
    // remove_nothing
    (b"remove 0\n", b"refused index\n", End::Whole, 0),
    // replace_a_part
    (
        b"insert 0 16\ndef f():\n  pass\ninsert 1 5\nf(1)\ninsert 0 6\na = 2\noutline\nreplace 0 11\na = 2\n\n# c\noutline\n",
        b"ok\nok\nok\nstatements 3\n1:1 assign\n2:1 def\n4:1 expression\nok\nstatements 3\n1:1 assign\n4:1 def\n6:1 expression\n",
        End::Whole,
        0,
    ),
    // tab_before_a_line
    (
        b"insert 0 3\n\tx\n",
        b"refused part:1:1 lexer\n",
        End::Whole,
        0,
    ),
    // too_few_bytes
    (b"insert 0 9\nx = 1\n", b"bad\n", End::Bad, 2),
    // too_great_a_number
    (b"insert 0 4294967296\n", b"bad\n", End::Bad, 2),
    // two_spaces
    (b"insert  0 1\n", b"bad\n", End::Bad, 2),
    // unfinished_string
    (
        b"insert 0 9\nx = \"abc\n",
        b"refused part:1:5-9 lexer\n",
        End::Whole,
        0,
    ),
    // words
    (
        b"insert 0 34\nload(\"m\", \"a\")\nx += 1\npass; y = 1\noutline\n",
        b"ok\nstatements 4\n1:1 load\n2:1 modify\n3:1 pass\n3:7 assign\n",
        End::Whole,
        0,
    ),
];

#[test]
fn cases(rt: HostRuntime) {
    for (script, replies, end, number) in &CASES {
        let short = run_short(&rt, script, u32::MAX, NEVER, Tight::new(&rt, NEVER, NEVER));
        holds(
            &rt,
            short.end == Ok(*end) && !short.read_failed && !short.write_failed,
        );
        equal(&rt, status(&short.end), *number);
        equal(&rt, short.writer.taken.as_slice(), *replies);
    }
}
